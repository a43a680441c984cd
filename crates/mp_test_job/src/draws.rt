//! The first draws of a seed.
use mp_draws::Draws;

// Of the generator of Lehmer's that multiplies by 48,271 modulo 2^31 - 1.
const FIRST_DRAWS: [u64; 8] = [
    48_271,
    182_605_794,
    1_291_394_886,
    1_914_720_637,
    2_078_669_041,
    407_355_683,
    1_105_902_161,
    854_716_505,
];

#[test]
fn first_draws(rt: HostRuntime) {
    let mut draws = Draws::of(0);
    for draw in FIRST_DRAWS {
        assert!(rt; draws.draw() == draw);
    }
}
