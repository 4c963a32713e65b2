// The words of the replies by number and name, and the layers by number.
use fault::{Layer, Word};

const WORDS: [(Word, u8, &str); 18] = [
    (Word::Served, 0, "Served"),
    (Word::Short, 1, "Short"),
    (Word::Tag, 2, "Tag"),
    (Word::Zero, 3, "Zero"),
    (Word::Garbled, 4, "Garbled"),
    (Word::Gone, 5, "Gone"),
    (Word::Stale, 6, "Stale"),
    (Word::Tight, 7, "Tight"),
    (Word::Crowded, 8, "Crowded"),
    (Word::NumberedOut, 9, "Numbered out"),
    (Word::Declined, 10, "Declined"),
    (Word::Deep, 11, "Deep"),
    (Word::Unopened, 12, "Unopened"),
    (Word::Sheet, 13, "Sheet"),
    (Word::SheetShort, 14, "Sheet short"),
    (Word::Name, 15, "Name"),
    (Word::Raw, 16, "Raw"),
    (Word::Hosts, 17, "Host's"),
];

const LAYERS: [(Layer, u8); 4] = [
    (Layer::Bytes, 1),
    (Layer::Stores, 2),
    (Layer::Servers, 3),
    (Layer::Session, 4),
];

#[test]
fn words_have_numbers(rt: HostRuntime) {
    for (word, number, name) in WORDS {
        assert_eq!(rt; (word.number(), word.name()), (number, name));
    }
    for (layer, number) in LAYERS {
        assert_eq!(rt; layer.number(), number);
    }
}
