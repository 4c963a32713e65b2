// Tests of the list on bad lines, refused values and the rarer forms of text.
#![tactic(auto)]

#[cfg(test)]
mod tests {
    use distinct::{DistinctTexts, count_texts};
    use fault::{Report, Word};
    use listing::items::Item;
    use listing::list_recording;
    use listing_text::ItemLine;
    use std::test::Fail;

    const BAD: &[u8] =
        b"-- lines 2 to 5 are bad\ntree 0\ntrees 00\ntree\ntree 00g0\n\nspan 00000000\nspan 0700000001\ntree 04";

    // What a list says of an item.
    #[derive(Clone, Copy, Debug, PartialEq, Eq)]
    enum Told {
        /// A value's number, and how many bytes were read.
        Read(usize, usize),
        /// A value's number, and its refusal's word and place.
        Refused(usize, Word, u64),
        /// A bad line's number.
        Bad(usize),
    }

    const TOLD: [Told; 7] = [
        Told::Bad(2),
        Told::Bad(3),
        Told::Bad(4),
        Told::Bad(5),
        Told::Refused(1, Word::Zero, 0),
        Told::Read(2, 4),
        Told::Refused(3, Word::Tag, 0),
    ];

    impl From<&Item> for Told {
        fn from(item: &Item) -> Told {
            match item {
                Item::Read(value) => Told::Read(value.number, value.read),
                Item::Refused(value) => {
                    let report = Report::from(value.fault);
                    Told::Refused(value.number, report.word, report.place)
                }
                Item::Bad(line) => Told::Bad(line.line),
            }
        }
    }

    #[test]
    fn lists_refusals(rt: HostRuntime) -> Result<(), Fail> {
        let listing = list_recording(rt.alloc(), BAD)?;
        assert!(rt; listing.items.len() == TOLD.len());
        for (item, expected) in listing.items.iter().zip(TOLD) {
            assert_eq!(rt; Told::from(item), expected);
        }
        let totals = listing.totals;
        let counts = totals.counts;
        assert_eq!(rt; (counts.refused, counts.bad_lines), (2, 4));
        assert_eq!(rt;
            (counts.spans, counts.bytes, totals.distinct_spans),
            (1, 4, 1)
        );
        Ok(())
    }

    // Four texts, of which two are the same: two symbols, and a literal with a suffix.
    const SYMBOLS: &[u8] =
        b"symbol 010000000000000061\nsymbol 010000000000000062\nliteral 0501010000000000000061000200000000000000753801000000";

    fn texts(rt: &HostRuntime, file: &[u8]) -> Result<DistinctTexts, Fail> {
        let listing = list_recording(rt.alloc(), file)?;
        Ok(count_texts(listing.items.as_slice()))
    }

    // A text of 1,025 bytes is one that no interner takes.
    #[test]
    fn counts_texts(rt: HostRuntime) -> Result<(), Fail> {
        assert_eq!(rt; texts(&rt, SYMBOLS)?, DistinctTexts::Exactly(3));
        let mut long = b"symbol 0104000000000000".to_vec(rt.alloc())?;
        for _ in 0..1025 {
            long.extend_from_slice(b"61")?;
        }
        assert_eq!(rt; texts(&rt, long.as_slice())?, DistinctTexts::AtLeast(0));
        Ok(())
    }

    // Each value's line, and how the list shows it as the first of a file.
    const SHOWN: [(&[u8], &str); 14] = [
        (
            b"tree 000301010000000200000003000000",
            "1 tree Group None no stream spans 1 2 3 read 15",
        ),
        (
            b"tree 00020009000000010000000200000003000000",
            "1 tree Group Bracket stream 9 spans 1 2 3 read 19",
        ),
        (
            b"tree 010a0001000000",
            "1 tree Punct '\\x0a' alone span 1 read 7",
        ),
        (
            b"tree 01270101000000",
            "1 tree Punct ''' joint span 1 read 7",
        ),
        (
            b"tree 0202000000000000000a220101000000",
            "1 tree Ident \"\\n\\\"\" raw span 1 read 16",
        ),
        (
            b"tree 03050101000000000000006100020000000000000075380b000000",
            "1 tree Literal StrRaw 1 \"a\" suffix \"u8\" span 11 read 27",
        ),
        (
            b"literal 02020000000000000034320101000000",
            "1 literal Integer \"42\" span 1 read 16",
        ),
        (b"symbol 0300000000000000616263", "1 symbol \"abc\" read 11"),
        (b"stream 0400000000", "1 stream 4 read 4 unread 1"),
        (b"tree 0203", "1 tree refused Short 1 place 1 layer 1"),
        (
            b"symbol 0100000000000000ff",
            "1 symbol refused Garbled 4 place 8 layer 1",
        ),
        (b"span 0", "line 1 bad: odd hexadecimal"),
        (b"span", "line 1 bad: no bytes"),
        (b"span 00g0", "line 1 bad: not hexadecimal at 7"),
    ];

    #[test]
    fn shows_forms(rt: HostRuntime) -> Result<(), Fail> {
        for (file, expected) in SHOWN {
            let listing = list_recording(rt.alloc(), file)?;
            assert!(rt; listing.items.len() == 1);
            let line = format!(in rt.alloc(); "{}", ItemLine(&listing.items[0]))?;
            assert_eq!(rt; line.as_str(), expected);
        }
        Ok(())
    }
}
