// Rounds of turns, worked out by hand.
use std::test::*;
use turns::turns_round;

const ROUNDS: [(u32, (u32, [u8; 4], u8)); 2] = [
    (0, (1_013_904_223, [3, 2, 1, 4], 4)),
    (1, (1_015_568_748, [3, 4, 1, 2], 2)),
];

#[test]
fn rounds_have_their_order_and_their_times(rt: HostRuntime) {
    for (number, round) in ROUNDS {
        assert!(rt; turns_round(number) == round);
    }
}
