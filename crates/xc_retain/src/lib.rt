//! What history the tablets of a target keep: pruning to a cutoff, the times that can be read, and a failover's
//! restore.
#![tactic(auto)]

mod each;
mod retention;

pub use retention::{Ahead, NotReadable, Retention};

#[cfg(test)]
mod tests {
    use super::*;
    use xc_record::Header;
    use xc_tablet::TargetTablet;

    const ROOT: Header = Header {
        id: 0,
        lo: 0,
        hi: 65535,
        parent: None,
    };

    #[test]
    fn times_are_read_from_the_cutoff_to_the_safe_time(rt: HostRuntime) {
        let alloc = rt.alloc();
        let made = TargetTablet::new(alloc, 0, 65535, &[ROOT]);
        assert!(rt; made.is_ok());
        let Ok(tablet) = made else { return };
        let mut tablets = [tablet];
        let mut retention = Retention::new();
        assert!(rt; retention.readable(0, 10) == Ok(()));
        assert!(rt; retention.prune(7, 10, &mut tablets) == Ok(7) && retention.cutoff() == 7);
        assert!(rt; retention.prune(3, 10, &mut tablets) == Ok(7));
        let ahead = retention.prune(11, 10, &mut tablets);
        assert!(rt; ahead == Err(Ahead { safe: 10 }) && retention == Retention::at(7));
        let cases: [(u64, Result<(), NotReadable>); 4] = [
            (6, Err(NotReadable::Pruned { cutoff: 7 })),
            (7, Ok(())),
            (10, Ok(())),
            (11, Err(NotReadable::Ahead { safe: 10 })),
        ];
        for (u, answer) in cases {
            assert!(rt; retention.readable(u, 10) == answer);
        }
        Retention::restore(10, &mut tablets);
        assert!(rt; tablets[0].range() == (0, 65535));
    }
}
