//! A law of outputs, over all inputs and rules. It stands for no work: its body does none.

ghost use Rattle.std.specs.Prelude.{◌≡◌, ℕ, List, IfErr, Result};
ghost use Rattle.mv_base.specs.Bytes.{AreBytes};
ghost use Rattle.image_layout.specs.Rules.{Rules};
ghost use Rattle.mv_rewrite.specs.Upgrading.{HasOutput};
ghost use Rattle.pair_check.specs.declared.checking.CheckFault.{CheckFault as FaultOf};
ghost use Rattle.pair_check.specs.declared.checking.CheckFault.TheVariants as fault;
ghost use Rattle.pair_check.specs.Checking.{IsChecked};

use mv_rewrite::laws::outputs_are_written;

/// What checking an input and its output by any rules gives is a yes, or want of memory.
pub fn outputs_pass()
    ensures { (b : List ℕ) (rules : Rules) (x : List ℕ) → HasOutput b rules x → AreBytes x →
        (r : Result ℕ FaultOf) → IsChecked b x r → IfErr r (λ e. e ≡ fault.NoMemory) }
{
    outputs_are_written();
}
