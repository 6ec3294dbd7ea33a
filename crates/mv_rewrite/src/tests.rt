//! Files that are rewritten: how many sites they have, the code that stands for them, which sites are counted, and where
//! the added block lies, or that no place has room.

ghost use Rattle.std.specs.Prelude.{◌≤◌, length};
ghost use Rattle.counter_hooks.specs.Rules.{IsAscending, Tells, picked as is_picked};
ghost use Rattle.counter_hooks.specs.declared.rules.Rule.TheVariants as rule;
ghost use Rattle.edge_hooks.specs.Rules.{edge_picked};
ghost use Rattle.edge_hooks.specs.declared.rules.EdgeRule.TheVariants as edge_rule;

use crate::rewriting::{FILE_LIMIT, RewriteFault, Rewritten, rewrite, rewrite_edges};
use counter_hooks::{Hooks, Question, Rule};
use edge_hooks::{EdgeHooks, EdgeRule};
use elf32_write::read_frame;
use std::alloc::Global;
use std::cell::Cell;
use superset::Site;
use x86_insn::Flow;

/// A file with two headers: its code at 0x08048074, `mov eax, 1`, `mov ebx, 7`, `int 0x80`, and a page of zeros at
/// 0x10000000 that can be read and written.
const FILE: [u8; 128] = [
    0x7F, 0x45, 0x4C, 0x46, 1, 1, 1, 0, 0, 0, 0, 0, 0, 0, 0, 0, //
    2, 0, 3, 0, 1, 0, 0, 0, 0x74, 0x80, 0x04, 0x08, 52, 0, 0, 0, //
    0, 0, 0, 0, 0, 0, 0, 0, 52, 0, 32, 0, 2, 0, 0, 0, //
    0, 0, 0, 0, 1, 0, 0, 0, 0x74, 0, 0, 0, 0x74, 0x80, 0x04, 0x08, //
    0x74, 0x80, 0x04, 0x08, 12, 0, 0, 0, 12, 0, 0, 0, 5, 0, 0, 0, //
    0, 0x10, 0, 0, 1, 0, 0, 0, 0, 0, 0, 0, 0, 0, 0, 0x10, //
    0, 0, 0, 0x10, 0, 0, 0, 0, 0, 0x10, 0, 0, 6, 0, 0, 0, //
    0, 0x10, 0, 0, 0xB8, 1, 0, 0, 0, 0xBB, 7, 0, 0, 0, 0xCD, 0x80,
];

/// How many bytes the stub has for one run.
const STUB_LEN: usize = 91;

/// The file with other bytes at some places.
fn edited<const N: usize, const K: usize>(mut file: [u8; N], edits: [(usize, u8); K]) -> [u8; N] {
    for (place, byte) in edits {
        if let Some(old) = file.get_mut(place) {
            *old = byte;
        }
    }
    file
}

/// The output of a file by a rule and a question that answers by it; else the size of the block that finds no room, or 0.
fn rewritten_by<F: Question + Drop>(
    alloc: Global,
    file: &[u8],
    rule: Rule,
    ask: F,
) -> Result<Rewritten, u64>
    requires limit { length file.now ≤ FILE_LIMIT }
    requires ascends { IsAscending rule }
    requires tells { Tells (F.answers ask) (is_picked rule) }
{
    match rewrite(alloc, file, &Hooks::new(rule, ask)) {
        Ok(rewritten) => Ok(rewritten),
        Err(RewriteFault::NoRoom(size)) => Err(size),
        Err(RewriteFault::Image(_) | RewriteFault::NoMemory) => Err(0),
    }
}

/// The output of a file without counters; else the size of the block that finds no room, or 0.
fn rewritten(alloc: Global, file: &[u8]) -> Result<Rewritten, u64>
    requires { length file.now ≤ FILE_LIMIT }
{
    rewritten_by(alloc, file, Rule::None, |_: &Site| false)
}

/// The first added address of a file's output, and how many are added.
fn added(alloc: Global, file: &[u8]) -> Result<(u32, u32), u64>
    requires { length file.now ≤ FILE_LIMIT }
{
    let output = rewritten(alloc, file)?;
    Ok((output.added.lo(), output.added.len()))
}

/// How many sites and runs a file's output has; `None` where it isn't rewritten.
fn counts(alloc: Global, file: &[u8]) -> Option<(u32, u32)>
    requires { length file.now ≤ FILE_LIMIT }
{
    let output = rewritten(alloc, file).ok()?;
    let frame = read_frame(output.bytes.as_slice())?;
    Some((output.sites, frame.run_count()))
}

/// Where a file's output maps an address; `None` where the file isn't rewritten.
fn mapped(alloc: Global, file: &[u8], address: u32) -> Option<u32>
    requires { length file.now ≤ FILE_LIMIT }
{
    let output = rewritten(alloc, file).ok()?;
    Some(read_frame(output.bytes.as_slice())?.map(address))
}

/// The file with this code in place of its own.
fn with_code<const K: usize>(code: [u8; K]) -> [u8; 128]
    requires { K ≤ 12 }
{
    let mut file = FILE;
    for (place, byte) in file[116..].iter_mut().zip(code) {
        *place = byte;
    }
    edited(file, [(68, K as u8), (72, K as u8)])
}

/// Whether the code of a file with one run has these bytes at a place behind the stub.
fn has_code(alloc: Global, file: &[u8], place: usize, bytes: &[u8]) -> bool
    requires within { length file.now ≤ FILE_LIMIT }
    requires low { place ≤ 1000 }
{
    let Ok(output) = rewritten(alloc, file) else {
        return false;
    };
    let Some(frame) = read_frame(output.bytes.as_slice()) else {
        return false;
    };
    let code = frame.code_bytes();
    let from = STUB_LEN + place;
    code.len() >= from && code[from..].starts_with(bytes)
}

#[test]
fn maps_sites_into_chains(rt: HostRuntime) {
    // `nop` and `ret` in one chain, 1 and 11 bytes, then `hlt`; an address that is no site goes to itself.
    let file = with_code([0x90, 0xC3, 0xF4]);
    assert_eq!(rt; counts(rt.alloc(), &file), Some((3, 1)));
    assert_eq!(rt; mapped(rt.alloc(), &file, 0x0804_8074), Some(0x0010_005B));
    assert_eq!(rt; mapped(rt.alloc(), &file, 0x0804_8075), Some(0x0010_005C));
    assert_eq!(rt; mapped(rt.alloc(), &file, 0x0804_8076), Some(0x0010_0067));
    assert_eq!(rt; mapped(rt.alloc(), &file, 0x0804_8077), Some(0x0804_8077));
}

/// A file with one header: its code at 0x08048054.
const ONE: [u8; 96] = [
    0x7F, 0x45, 0x4C, 0x46, 1, 1, 1, 0, 0, 0, 0, 0, 0, 0, 0, 0, //
    2, 0, 3, 0, 1, 0, 0, 0, 0x54, 0x80, 0x04, 0x08, 52, 0, 0, 0, //
    0, 0, 0, 0, 0, 0, 0, 0, 52, 0, 32, 0, 1, 0, 0, 0, //
    0, 0, 0, 0, 1, 0, 0, 0, 84, 0, 0, 0, 0x54, 0x80, 0x04, 0x08, //
    0x54, 0x80, 0x04, 0x08, 12, 0, 0, 0, 12, 0, 0, 0, 5, 0, 0, 0, //
    0, 0x10, 0, 0, 0xB8, 1, 0, 0, 0, 0xBB, 7, 0, 0, 0, 0xCD, 0x80,
];

#[test]
fn writes_five_chains_of_an_exit(rt: HostRuntime) {
    // `mov eax,1`, `mov ebx,7`, `int 0x80`, and what else can be read from each byte of them.
    let chains = [
        0xB8, 1, 0, 0, 0, 0xBB, 7, 0, 0, 0, 0xCD, 0x80, 0xE9, 0xF4, 0x7F, 0xF4, 0x07, //
        1, 0, 0, 0, 0xE9, 0xEB, 0xFF, 0xFF, 0xFF, //
        0, 0, 0, 0xBB, 7, 0, 0, 0, 0xE9, 0xE3, 0xFF, 0xFF, 0xFF, //
        0, 0, 0, 0xCD, 0xE9, 0xD4, 0x7F, 0xF4, 0x07, //
        0, 0, 0xE9, 0xD3, 0xFF, 0xFF, 0xFF,
    ];
    assert_eq!(rt; counts(rt.alloc(), &ONE), Some((10, 1)));
    assert!(rt; has_code(rt.alloc(), &ONE, 0, &chains));
    let entries = [
        (0x0804_8054, 0x0010_005B),
        (0x0804_8055, 0x0010_006C),
        (0x0804_8057, 0x0010_006E),
        (0x0804_8059, 0x0010_0060),
        (0x0804_805A, 0x0804_805A),
        (0x0804_805C, 0x0010_008B),
        (0x0804_805E, 0x0010_0065),
        (0x0804_805F, 0x0804_805F),
    ];
    for (address, entry) in entries {
        assert_eq!(rt; mapped(rt.alloc(), &ONE, address), Some(entry));
    }
}

/// Whether a file is rewritten, and no front of its output has a frame.
fn has_frame_whole_alone(alloc: Global, file: &[u8]) -> bool
    requires { length file.now ≤ FILE_LIMIT }
{
    let Ok(output) = rewritten(alloc, file) else {
        return false;
    };
    let bytes = output.bytes.as_slice();
    for len in 0..bytes.len() {
        if read_frame(&bytes[..len]).is_some() {
            return false;
        }
    }
    read_frame(bytes).is_some()
}

#[test]
fn no_front_of_an_output_has_a_frame(rt: HostRuntime) {
    assert!(rt; has_frame_whole_alone(rt.alloc(), &ONE));
}

/// What a file's output counts where each `ret` is counted: how many sites, the first one's address, its entry and the
/// place of its counter, and the entry of the address behind it.
fn counted_returns(alloc: Global, file: &[u8]) -> Option<(u32, u32, u32, u32, u32)>
    requires { length file.now ≤ FILE_LIMIT }
{
    let ask = |site: &Site| matches!(site.insn.next_kind(), Flow::Return);
    let output = rewritten_by(alloc, file, Rule::Returns, ask).ok()?;
    let frame = read_frame(output.bytes.as_slice())?;
    if frame.counter_count() == 0 {
        return None;
    }
    let address = frame.counted_at(0);
    let behind = frame.map(address.wrapping_add(1));
    Some((
        output.counters,
        address,
        frame.map(address),
        frame.counter_place(0),
        behind,
    ))
}

#[test]
fn counts_a_return_in_front_of_its_piece(rt: HostRuntime) {
    // `nop`, `ret`, which has a counter of 46 bytes and a piece of 11, and `hlt`. The private area is at 0x00104000.
    let file = with_code([0x90, 0xC3, 0xF4]);
    let counted = (1, 0x0804_8075, 0x0010_005C, 0x0010_4040, 0x0010_0095);
    assert_eq!(rt; counted_returns(rt.alloc(), &file), Some(counted));
}

/// The output of a file with all counters of all kinds, by questions that answer so.
fn rewritten_whole<F: Question + Drop, G: Question + Drop>(
    alloc: Global,
    file: &[u8],
    all: F,
    ways: G,
) -> Option<Rewritten>
    requires limit { length file.now ≤ FILE_LIMIT }
    requires all { Tells (F.answers all) (is_picked rule.All) }
    requires ways { Tells (G.answers ways) (edge_picked edge_rule.All) }
{
    let hooks = Hooks::new(Rule::All, all);
    let edges = EdgeHooks::new(EdgeRule::All, ways);
    rewrite_edges(alloc, file, &hooks, &edges).ok()
}

#[test]
fn asks_both_questions_twice_a_site(rt: HostRuntime) {
    // `jz` of the address behind it, `add ah,dh` and `hlt`: three sites, of which the first is a branch.
    let file = edited(ONE, [(68, 3), (72, 3), (84, 0x74), (85, 0), (86, 0xF4)]);
    let asked = Cell::new(0u64);
    let all = |_: &Site| {
        asked.set(asked.get().wrapping_add(1));
        true
    };
    let asked_of_ways = Cell::new(0u64);
    let ways = |site: &Site| {
        asked_of_ways.set(asked_of_ways.get().wrapping_add(1));
        matches!(site.insn.next_kind(), Flow::Branch | Flow::Count)
    };
    let output = rewritten_whole(rt.alloc(), &file, all, ways);
    assert!(rt; output.is_some_and(|output| output.counters == 5 && output.sites == 3));
    assert_eq!(rt; (asked.get(), asked_of_ways.get()), (6, 6));
}

#[test]
fn ends_a_chain_with_a_join(rt: HostRuntime) {
    // A jump to its own second byte, which is `inc eax`: two chains, and a join behind the second.
    let jump = [(68, 3), (72, 3), (84, 0xEB), (85, 0xFF), (86, 0xC0)];
    let file = edited(ONE, jump);
    let chains = [0xE9, 0, 0, 0, 0, 0xFF, 0xC0, 0xE9, 0xF0, 0x7F, 0xF4, 0x07];
    assert!(rt; has_code(rt.alloc(), &file, 0, &chains));
}

#[test]
fn joins_what_stands_in_an_earlier_chain(rt: HostRuntime) {
    // The whole file is mapped; `hlt` stands in the chain that begins at the ELF header, so a join follows the `mov`.
    let whole = [
        (56, 0),
        (60, 0),
        (64, 0),
        (68, 0x5A),
        (72, 0x5A),
        (84, 0xA1),
        (85, 0x18),
        (86, 0x80),
        (87, 0x04),
        (88, 0x08),
        (89, 0xF4),
    ];
    let file = edited(ONE, whole);
    let entry = mapped(rt.alloc(), &file, 0x0804_8054).unwrap_or(0);
    let behind = mapped(rt.alloc(), &file, 0x0804_8059).unwrap_or(0);
    let reach = behind.wrapping_sub(entry.wrapping_add(10)).to_le_bytes();
    let joined = [
        0xA1, 0x18, 0x80, 0x04, 0x08, 0xE9, reach[0], reach[1], reach[2], reach[3],
    ];
    let place = entry.wrapping_sub(0x0010_005B) as usize;
    assert!(rt; behind < entry);
    assert!(rt; place <= 1000 && has_code(rt.alloc(), &file, place, &joined));
}

#[test]
fn sends_a_jump_through_the_stub(rt: HostRuntime) {
    // `jmp esp`: mov [P],eax; mov eax,esp; mov [P+4],eax; mov eax,[P]; jmp stub, with P at 0x00104000.
    let piece = [
        0xA3, 0x00, 0x40, 0x10, 0x00, 0x89, 0xE0, 0xA3, 0x04, 0x40, 0x10, 0x00, 0xA1, 0x00, 0x40,
        0x10, 0x00, 0xE9, 0x8F, 0xFF, 0xFF, 0xFF,
    ];
    let file = with_code([0xFF, 0xE4]);
    assert_eq!(rt; counts(rt.alloc(), &file), Some((1, 1)));
    assert!(rt; has_code(rt.alloc(), &file, 0, &piece));
}

#[test]
fn pushes_the_old_address_of_a_call(rt: HostRuntime) {
    // `call` of the address behind it, which is `nop`: push 0x08048079; jmp to the `nop`.
    let file = with_code([0xE8, 0, 0, 0, 0, 0x90]);
    let piece = [0x68, 0x79, 0x80, 0x04, 0x08, 0xE9];
    assert!(rt; has_code(rt.alloc(), &file, 0, &piece));
}

#[test]
fn decodes_at_every_byte(rt: HostRuntime) {
    // `mov eax,[esp+4]`, `push eax`, and from each byte between them an instruction too.
    let file = with_code([0x8B, 0x44, 0x24, 0x04, 0x50]);
    assert_eq!(rt; counts(rt.alloc(), &file), Some((5, 1)));
    // F3 is no prefix of `bsf`; `mov`'s last byte of code is missing.
    let file = with_code([0xF3, 0x0F, 0xBC, 0xC1, 0xF4]);
    assert_eq!(rt; counts(rt.alloc(), &file), Some((2, 1)));
    let file = with_code([0xB8, 0x01]);
    assert_eq!(rt; counts(rt.alloc(), &file), Some((0, 1)));
}

#[test]
fn joins_segments_that_touch(rt: HostRuntime) {
    let one = counts(rt.alloc(), &FILE);
    assert!(rt; one.is_some_and(|(_, runs)| runs == 1));

    // The second segment, at 0x08049000, may be executed; the first goes up to it, or to one byte before it.
    let second = [(93, 0x90), (94, 0x04), (95, 0x08), (100, 4), (108, 5)];
    let touching = edited(edited(FILE, second), [(72, 0x8C), (73, 0x0F)]);
    let joined = counts(rt.alloc(), &touching);
    assert!(rt; joined.is_some_and(|(_, runs)| runs == 1));

    let apart = counts(rt.alloc(), &edited(touching, [(72, 0x8B)]));
    assert!(rt; apart.is_some_and(|(_, runs)| runs == 2));
}

#[test]
fn takes_a_file_without_code(rt: HostRuntime) {
    let file = edited(FILE, [(76, 4)]);
    assert_eq!(rt; counts(rt.alloc(), &file), Some((0, 0)));
    assert_eq!(rt; added(rt.alloc(), &file), Ok((0x0010_0000, 0x3000)));
}

#[test]
fn lays_the_block_where_room_is(rt: HostRuntime) {
    assert_eq!(rt; added(rt.alloc(), &FILE), Ok((0x0010_0000, 0x5000)));

    // The code at 0x00102074 leaves two pages in front.
    let low = edited(FILE, [(61, 0x20), (62, 0x10), (63, 0)]);
    assert_eq!(rt; added(rt.alloc(), &low), Ok((0x0010_3000, 0x5000)));
}

#[test]
fn finds_no_room(rt: HostRuntime) {
    // The code at 0x00100074, and zeros from 0x00105000 up to 0xAFFFB000: five pages are left at the end.
    let code = edited(FILE, [(61, 0), (62, 0x10), (63, 0)]);
    let zeros = [
        (93, 0x50),
        (94, 0x10),
        (95, 0),
        (105, 0x60),
        (106, 0xEF),
        (107, 0xAF),
    ];
    let room = edited(code, zeros);
    assert_eq!(rt; added(rt.alloc(), &room), Ok((0xAFFF_B000, 0x5000)));

    // One page of zeros more.
    let full = edited(room, [(105, 0x70)]);
    assert_eq!(rt; added(rt.alloc(), &full), Err(20_480));
}
