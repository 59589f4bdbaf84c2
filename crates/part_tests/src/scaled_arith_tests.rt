use scaled_arith::{divide, fraction, magnify, times_plus, units};

// The units of The TeXbook, chapter 10, in sp as TeX tells them: pt, in, pc, cm, mm, bp, dd and cc.
#[test]
fn units_of_the_texbook(rt: HostRuntime) {
    let told = [
        units(65536, 1, 1),
        units(65536, 7227, 100),
        units(65536, 12, 1),
        units(65536, 7227, 254),
        units(65536, 7227, 2540),
        units(65536, 7227, 7200),
        units(65536, 1238, 1157),
        units(65536, 14856, 1157),
    ];
    let wanted = [
        Some(65536),
        Some(4736286),
        Some(786432),
        Some(1864679),
        Some(186467),
        Some(65781),
        Some(70124),
        Some(841489),
    ];
    assert!(rt; told == wanted);
}

#[test]
fn bounds_and_one_beyond(rt: HostRuntime) {
    let told = [
        units(1073741823, 1, 1),
        units(1073741824, 1, 1),
        units(140737488355328, 1, 32768),
        magnify(70368744177663, 1000),
        magnify(70368744177664, 1000),
        magnify(65536, 2000),
        times_plus(32767, 32769, 0, 1073741823),
        times_plus(32767, 32769, 1, 1073741823),
        times_plus(-32767, 32769, 0, 1073741823),
        times_plus(-32767, 32769, -1, 1073741823),
    ];
    let wanted = [
        Some(1073741823),
        None,
        None,
        Some(70368744177663),
        None,
        Some(32768),
        Some(1073741823),
        None,
        Some(-1073741823),
        None,
    ];
    assert!(rt; told == wanted);
}

#[test]
fn quotients_are_cut_towards_zero(rt: HostRuntime) {
    let told = [divide(7, 2), divide(-7, 2), divide(7, -2), divide(7, 0)];
    assert!(rt; told == [Some(3), Some(-3), Some(-3), None]);
}

#[test]
fn fractions_are_rounded(rt: HostRuntime) {
    let told = [
        fraction(&[]),
        fraction(&[5]),
        fraction(&[0, 0, 0, 0, 5]),
        fraction(&[2, 6, 9, 9, 9]),
        fraction(&[9, 9, 9, 9, 8]),
        fraction(&[9; 18]),
    ];
    assert!(rt; told == [0, 32768, 3, 17694, 65535, 65536]);
}
