//! System calls: they take the answers of a log.

ghost use Rattle.std.specs.Prelude.{◌≡◌, ◌+◌, ◌<◌, ◌≤◌, true, cond, length, map, count_by};
ghost use Rattle.std.specs.List.{AllByRecursion};
ghost use Rattle.mv_base.specs.Effects.{IsEffect, described, is_descriptor};
ghost use Rattle.syscall_log.specs.Meaning.{effect_of};
ghost use Rattle.proc_image.specs.Paged.{cells};
ghost use Rattle.x86_machine.specs.Bounded.{AreApplied};

use crate::descs::Descs;
use proc_image::{EffectFault, Memory};
use syscall_log::Effect;

/// Applies effects in their order. Those before a refused one stand.
///
/// # Errors
///
/// The fault of the first that isn't applied.
pub fn apply_all(
    memory: &mut Memory,
    descs: &mut Descs,
    effects: &[Effect],
) -> Result<(), EffectFault>
    requires bounds { AllByRecursion IsEffect (map effect_of effects.now) }
    requires room { count_by is_descriptor (map effect_of effects.now) ≤ descs.old.spare }
    ensures is { AreApplied (cells memory.old) (map effect_of effects.now) descs.old.made
        (cells memory.new) descs.new.made result }
    ensures spare { descs.new.spare + length descs.new.made ≡ descs.old.spare +
        length descs.old.made }
    ensures left { descs.old.spare ≤ descs.new.spare +
        count_by is_descriptor (map effect_of effects.now) }
{
    for effect in effects {
        match memory.apply(effect) {
            Ok(()) => describe(descs, effect),
            Err(fault) => return Err(fault),
        }
    }
    Ok(())
}

/// What an effect that isn't refused does to the descriptors.
fn describe(descs: &mut Descs, effect: &Effect)
    requires { is_descriptor (effect_of effect.now) ≡ true → 0 < descs.old.spare }
    ensures made { descs.new.made ≡ described descs.old.made (effect_of effect.now) }
    ensures spare { descs.new.spare + length descs.new.made ≡ descs.old.spare +
        length descs.old.made }
    ensures left { descs.old.spare ≤ descs.new.spare +
        cond (is_descriptor (effect_of effect.now)) 1 0 }
{
    if let Effect::Desc { index, base } = effect {
        descs.set(*index, *base);
    }
}
