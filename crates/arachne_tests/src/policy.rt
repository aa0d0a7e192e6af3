//! Tests which core `two_choices` chooses by a given random word.
use arachne_policy::{CoreLoad, two_choices};

fn load(core: u8, count: u8) -> CoreLoad {
    CoreLoad { core, count }
}

/// Of the cores 1 and 3, that with fewer threads must be chosen or, if both have equally many, the first.
#[test]
fn cores_are_chosen(rt: HostRuntime) {
    for (last, chosen) in [(2, 1), (1, 3)] {
        let loads = [load(0, 4), load(1, 2), load(2, 0), load(3, last)];
        assert!(rt; two_choices(0x0000_0003_0000_0005, &loads) == chosen);
    }
}
