//! Values and flags from outside: what a processor gives.

use x86_alu::{alu, bit, bump, div, double, logic_test, mul, negate, scan, shift};
use x86_insn::{AluOp, BitOp, Flags, ShiftOp, Width};

/// Every flag clear; its image is 0x202.
const CLEAR: Flags = Flags {
    cf: false,
    pf: false,
    af: false,
    zf: false,
    sf: false,
    df: false,
    of: false,
    id: false,
};

/// Every flag but CF and OF set; with both its image is 0x200ed7.
const OTHERS: Flags = Flags {
    cf: false,
    pf: true,
    af: true,
    zf: true,
    sf: true,
    df: true,
    of: false,
    id: true,
};

#[test]
fn values_and_flag_images(rt: HostRuntime) {
    let (low, high, product) = mul(true, Width::D, 0x1_0000, 0x1_0000, CLEAR);
    let (first, scanned) = scan(true, Width::D, 0x50, CLEAR);
    let (last, _) = scan(false, Width::D, 0x50, CLEAR);
    let rows = [
        (alu(AluOp::Add, Width::B, 0x7f, 1, CLEAR), 0x80, 0xa92),
        (alu(AluOp::Sub, Width::D, 0, 1, CLEAR), 0xffff_ffff, 0x297),
        (shift(ShiftOp::Shl, Width::B, 1, 8, CLEAR), 0, 0x246),
        (shift(ShiftOp::Sar, Width::B, 0x81, 9, CLEAR), 0xff, 0x287),
        (shift(ShiftOp::Rcl, Width::B, 0x80, 1, OTHERS), 0, 0x20_0ed7),
        (negate(Width::B, 0x80, CLEAR), 0x80, 0xa83),
        ((low, product), 0, 0xa03),
        ((high, product), 1, 0xa03),
        (bump(true, Width::B, 0xff, CLEAR), 0, 0x256),
        (double(true, 0x8000_0001, 0xc000_0000, 1, CLEAR), 3, 0xa07),
        (bit(BitOp::Btc, Width::W, 0x8000, 31, CLEAR), 0, 0x203),
    ];
    for ((value, flags), want, image) in rows {
        assert_eq!(rt; value, want, "image {image}");
        assert_eq!(rt; flags.image(), image, "value {want}");
    }
    assert_eq!(rt; logic_test(Width::B, 0xf0, 0x0f, CLEAR).image(), 0x246);
    assert_eq!(rt; (first, last, scanned.image()), (Some(4), Some(6), 0x202));
    assert_eq!(rt;
        div(true, Width::D, 0xffff_ffff, 0x8000_0000, 0xffff_ffff, CLEAR),
        None
    );
    assert_eq!(rt;
        div(true, Width::B, 0xff, 0xf9, 2, OTHERS).map(|r| (r.0, r.1, r.2.image())),
        Some((0xfd, 0xff, 0x20_0602))
    );
}
