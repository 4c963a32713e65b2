// How many different texts the values of a list hold, as an interner counts them.
#![tactic(auto)]

ghost use Rattle.std.specs.Prelude.{◌≡◌, true, ◌++◌, map};
ghost use Rattle.std.specs.Option.{option_to_list};
ghost use Rattle.rpc.specs.Kinds.{text_in};
ghost use Rattle.symbol.specs.Interning.{empty_from};
ghost use Rattle.listing.specs.Items.{entry_of};
ghost use Rattle.distinct.specs.Counted.{counted, Counts};
ghost use Rattle.distinct.specs.Noted.{Noted};
ghost use Rattle.distinct.specs.Texts.{texts_in, texts_of, all_texts};

use listing::items::Item;
use listing::value::Value;
use rpc::Text;
use symbol::interner::Interner;
use tree::TokenTree;

/// How many different texts there are: exactly so many, or at least so many where the interner
/// did not take them all.
#[derive(Clone, Copy, Debug, PartialEq, Eq)]
pub enum DistinctTexts {
    Exactly(usize),
    AtLeast(usize),
}

// The texts of a value: none, one, or a literal's own and its suffix. They are a pair, which two calls
// note: a loop over an array of two options is no plainer.
fn texts_in(value: &Value) -> (Option<Text>, Option<Text>)
    ensures { option_to_list result.0 ++ option_to_list result.1 ≡ texts_in value.now }
{
    match value {
        Value::Tree(TokenTree::Literal(literal)) | Value::Literal(literal) => {
            (Some(literal.symbol), literal.suffix)
        },
        Value::Tree(TokenTree::Ident(ident)) => (Some(ident.sym), None),
        Value::Symbol(text) => (Some(*text), None),
        Value::Tree(TokenTree::Group(_) | TokenTree::Punct(_))
        | Value::Stream(_)
        | Value::Span(_) => (None, None),
    }
}

// The texts that were given to an interner, and whether it took each of them.
// A flag and no Result: the texts behind one that is not taken are interned and counted too.
#[derive(Drop)]
struct Noting {
    interner: Interner,
    took_all: bool,
}

impl Noting {
    // No text was given yet.
    fn new() -> Noting
        ensures interner { result.interner ≡ empty_from 1 }
        ensures took_all { result.took_all ≡ true }
    {
        Noting {
            interner: Interner::open(1).unwrap(),
            took_all: true,
        }
    }

    // Interns a text, where there is one.
    fn note(&mut self, bytes: &[u8], text: Option<Text>)
        ensures { Noted self.old (map (text_in bytes.now) (option_to_list text)) self.new }
    {
        if let Some(text) = text {
            self.took_all &= self.interner.intern(text.bytes_in(bytes)).is_ok();
        }
    }

    // Interns the texts of an item.
    fn note_item(&mut self, item: &Item)
        ensures { Noted self.old (texts_of (entry_of item.now)) self.new }
    {
        if let Item::Read(read) = item {
            let (first, second) = texts_in(&read.value);
            let bytes = read.bytes.as_slice();
            self.note(bytes, first);
            self.note(bytes, second);
        }
    }

    // Interns the texts of the items in turn.
    fn note_items(&mut self, items: &[Item])
        ensures { Noted self.old (all_texts (map entry_of items.now)) self.new }
    {
        for item in items {
            self.note_item(item);
        }
    }
}

/// Counts the different texts of the values that were read.
pub fn count_texts(items: &[Item]) -> DistinctTexts
    ensures counted { result ≡ counted (all_texts (map entry_of items.now)) }
    ensures counts { Counts (all_texts (map entry_of items.now)) result }
{
    let mut noting = Noting::new();
    noting.note_items(items);
    let count = noting.interner.len();
    if noting.took_all {
        DistinctTexts::Exactly(count)
    } else {
        DistinctTexts::AtLeast(count)
    }
}
