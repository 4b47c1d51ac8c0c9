// Examples of chips, as tests. A crate of their own, since a crate with tests is proved twice.
#![tactic(auto)]

#[cfg(test)]
mod tests {
    use chip::chip::Chip;
    use chip::count::CountChip;
    use chip::page::PageChip;
    use chip::ram::Ram;
    use pair::pair::{Pair, Unpaired};
    use std::alloc::Global;
    use std::test::Fail;

    fn blank_page(heap: Global, size: usize) -> Result<PageChip<Ram>, Fail> {
        PageChip::mount(Ram::new(vec![in heap; u32::MAX; size]?)).map_err(|_| Fail::new(
            "a blank memory was refused",
        ))
    }

    #[test]
    fn a_cut_loses_only_what_was_not_settled(rt: HostRuntime) -> Result<(), Fail> {
        let mut chip = blank_page(rt.alloc(), 20)?;
        let _ = chip.append(1);
        let _ = chip.append(2);
        chip.settle();
        let _ = chip.append(3);
        let before = chip.count();
        let (Ok(chip) | Err(chip)) = chip.cut();
        let after = chip.count();
        let second = chip.read_word(1).ok();
        let _ = chip.into_memory();
        assert_eq!(rt; before, 3);
        assert_eq!(rt; after, 2);
        assert_eq!(rt; second, Some(2));
        Ok(())
    }

    #[test]
    fn the_sixteenth_word_programs_the_page(rt: HostRuntime) -> Result<(), Fail> {
        let mut chip = blank_page(rt.alloc(), 20)?;
        for word in 0..17 {
            let _ = chip.append(word);
        }
        let (Ok(chip) | Err(chip)) = chip.cut();
        let after = chip.count();
        let _ = chip.into_memory();
        assert_eq!(rt; after, 16);
        Ok(())
    }

    #[test]
    fn a_count_chip_refuses_a_number_past_its_words(rt: HostRuntime) -> Result<(), Fail> {
        match CountChip::mount(Ram::new(vec![in rt.alloc(); 3, 7, 8]?)) {
            Ok(chip) => {
                let _ = chip.into_memory();
                Err(Fail::new("it was mounted"))
            }
            Err(unmounted) => {
                assert_eq!(rt; u8::from(unmounted.refusal), 1);
                Ok(())
            },
        }
    }

    #[test]
    fn a_pair_reads_through_both_chips(rt: HostRuntime) -> Result<(), Fail> {
        let heap = rt.alloc();
        let first = blank_page(heap, 1)?;
        let second = match blank_page(heap, 2) {
            Ok(second) => second,
            Err(fail) => {
                let _ = first.into_memory();
                return Err(fail);
            }
        };
        match Pair::new(first, second) {
            Ok(mut pair) => {
                let _ = pair.append(5);
                let _ = pair.append(6);
                let word = pair.read_word(1).ok();
                let room = pair.capacity();
                let (first, second) = pair.into_parts();
                let on_first = first.count();
                let _ = first.into_memory();
                let _ = second.into_memory();
                assert_eq!(rt; word, Some(6));
                assert_eq!(rt; room, 3);
                assert_eq!(rt; on_first, 1);
                Ok(())
            }
            Err(
                Unpaired {
                    first,
                    second,
                    refusal: _,
                },
            ) => {
                let _ = first.into_memory();
                let _ = second.into_memory();
                Err(Fail::new("two blank chips were refused"))
            }
        }
    }
}
