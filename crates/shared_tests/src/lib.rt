// Examples on the calls of the shared crates. They stand in a crate of their own, since a crate with tests is proved twice.
#![tactic(auto)]

#[cfg(test)]
mod tests {
    use shared::kinds::{HashFamily, PartKind, SettingKind};
    use shared::refusal::{Cause, Fault, Refusal};
    use shared::sizes::Sizes;
    use shared_families::fnv::{Fnv, fnv_1a};
    use shared_families::held_back::HeldBack;
    use shared_families::pearson::Pearson;
    use shared_kinds::part_number::PartNumber;
    use shared_kinds::set_number::SetNumber;
    use shared_kinds::tag::Tag;
    use shared_kinds::trim::Trim;
    use std::test::Fail;

    // The number of the refusal, or 0.
    fn refused<T: Drop>(r: Result<T, Refusal>) -> u8 {
        r.err().map_or(0, Refusal::number)
    }

    fn part_number(text: &[u8]) -> Result<PartNumber, Refusal> {
        PartNumber::try_from(text)
    }

    #[test]
    fn refusals_are_numbered_in_order(rt: HostRuntime) {
        let all = [
            Refusal::SizeOutside,
            Refusal::Shut,
            Refusal::NoSuchPart,
            Refusal::NoSuchSetting,
            Refusal::StandsAlready,
            Refusal::DoesNotStand,
            Refusal::NoChain,
            Refusal::AlreadyJoined,
            Refusal::NoSeed,
            Refusal::OverflowFull,
            Refusal::BufferTooShort,
            Refusal::LastNumber,
            Refusal::SheetWritten,
            Refusal::Malformed(Fault {
                place: 0,
                cause: Cause::Word,
            }),
            Refusal::NotNext,
            Refusal::OutsideSizes,
            Refusal::BucketTwice,
        ];
        for (refusal, number) in all.iter().zip(1..) {
            assert_eq!(rt; refusal.number(), number);
        }
    }

    #[test]
    fn sizes_keep_their_limits(rt: HostRuntime) {
        assert_eq!(rt; refused(Sizes::new(1, 1, 1, 0, 0)), 0);
        assert_eq!(rt; refused(Sizes::new(4096, 32768, 32768, 256, 15)), 0);
        assert_eq!(rt; refused(Sizes::new(0, 1, 1, 0, 0)), 1);
        assert_eq!(rt; refused(Sizes::new(4097, 1, 1, 0, 0)), 1);
        assert_eq!(rt; refused(Sizes::new(1, 0, 1, 0, 0)), 1);
        assert_eq!(rt; refused(Sizes::new(1, 1, 32769, 0, 0)), 1);
        assert_eq!(rt; refused(Sizes::new(1, 1, 1, 257, 0)), 1);
        assert_eq!(rt; refused(Sizes::new(1, 1, 1, 0, 16)), 1);
    }

    #[test]
    fn tags_are_six_bytes(rt: HostRuntime) -> Result<(), Fail> {
        let tag = Tag::try_from(0x0102_0304_0506)?;
        assert_eq!(rt; tag.as_bytes(), [1, 2, 3, 4, 5, 6].as_slice());
        assert_eq!(rt; refused(Tag::try_from(0xffff_ffff_ffff)), 0);
        assert_eq!(rt; refused(Tag::try_from(0x1_0000_0000_0000)), 3);
        Ok(())
    }

    #[test]
    fn part_numbers_are_named(rt: HostRuntime) -> Result<(), Fail> {
        assert_eq!(rt; part_number(b"AZ-09")?.as_bytes(), b"AZ-09".as_slice());
        assert_eq!(rt; refused(part_number(b"ABCDEFGHIJKLMNOP")), 0);
        assert_eq!(rt; refused(part_number(b"")), 3);
        assert_eq!(rt; refused(part_number(b"ABCDEFGHIJKLMNOPQ")), 3);
        assert_eq!(rt; refused(part_number(b"Ab")), 3);
        assert_eq!(rt; refused(part_number(b"A B")), 3);
        Ok(())
    }

    #[test]
    fn settings_are_judged(rt: HostRuntime) -> Result<(), Fail> {
        assert_eq!(rt;
            Trim::new(600, 1500, 9999)?,
            Trim {
                advance: 600,
                fuel: 1500,
                dwell: 9999,
            }
        );
        assert_eq!(rt;
            Trim::blank(),
            Trim {
                advance: 0,
                fuel: 1000,
                dwell: 0,
            }
        );
        assert_eq!(rt; refused(Trim::new(0, 1501, 0)), 4);
        assert_eq!(rt; refused(Trim::new(0, 499, 0)), 4);
        assert_eq!(rt; refused(Trim::new(601, 1000, 0)), 4);
        assert_eq!(rt; refused(Trim::new(0, 1000, 10000)), 4);
        assert!(rt; Trim::read(&[0, 1000]).is_err());
        assert!(rt; SetNumber::read(&[]).is_err());
        assert_eq!(rt; SetNumber::read(&[65535])?.number_at(0), 65535);
        Ok(())
    }

    #[test]
    fn hashes_have_their_published_values(rt: HostRuntime) -> Result<(), Fail> {
        assert_eq!(rt; fnv_1a(b""), 0x811C_9DC5);
        assert_eq!(rt; fnv_1a(b"foobar"), 0xBF9C_F968);
        assert_eq!(rt; Pearson.hash_of(0, &part_number(b"A")?), 0x6120_FCF2);
        Ok(())
    }

    #[test]
    fn four_hashes_are_those_of_four_seeds(rt: HostRuntime) -> Result<(), Fail> {
        let part = part_number(b"04E-906-018")?;
        let [w, x, y, z] = Fnv.hash_four(15, &part);
        assert_eq!(rt; w, Fnv.hash_of(316, &part));
        assert_eq!(rt; x, Fnv.hash_of(317, &part));
        assert_eq!(rt; y, Fnv.hash_of(318, &part));
        assert_eq!(rt; z, Fnv.hash_of(319, &part));
        Ok(())
    }

    #[test]
    fn a_held_back_family_starts_late(rt: HostRuntime) -> Result<(), Fail> {
        assert!(rt; HeldBack::new(257).is_none());
        let part = part_number(b"A")?;
        let Some(family) = HeldBack::new(31) else {
            return Err(Fail::new("no family"));
        };
        assert_eq!(rt; family.hash_of(30, &part), 0);
        assert_eq!(rt; family.hash_of(31, &part), Pearson.hash_of(31, &part));
        Ok(())
    }
}
