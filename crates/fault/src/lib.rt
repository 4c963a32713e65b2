// The replies by number: a word, and for a refusal its place and the layer that it arose in.
#![tactic(auto)]

ghost use Rattle.std.specs.Prelude.{◌≡◌, Some};
ghost use Rattle.fault.specs.Replies.{number_of, name_of, layer_number, byte_word, store_word, server_word, session_word};
ghost use Rattle.fault.specs.Reports.{byte_report, store_report, server_report, session_report};
ghost use Rattle.fault.specs.Carried.{byte_in_store, byte_in_server, byte_in_session, store_in_session, server_in_session};

use std::fmt;

// What a call replies.
#[derive(Clone, Copy, Debug, PartialEq, Eq)]
pub enum Word {
    Served = 0,
    Short = 1,
    Tag = 2,
    Zero = 3,
    Garbled = 4,
    Gone = 5,
    Stale = 6,
    Tight = 7,
    Crowded = 8,
    NumberedOut = 9,
    Declined = 10,
    Deep = 11,
    Unopened = 12,
    Sheet = 13,
    SheetShort = 14,
    Name = 15,
    Raw = 16,
    Hosts = 17,
}

impl fmt::Display for Word {
    ghost output = { λ w. Some (name_of w) };

    fn fmt<W: fmt::Write>(&self, f: &mut fmt::Formatter<W>) -> fmt::Result {
        f.write_str(self.name())
    }
}

impl Word {
    // The number that stands for the word, 0 to 17.
    pub fn number(self) -> u8
        ensures { result ≡ number_of self }
    {
        // the word's discriminant
        self as u8
    }

    // The word as it is printed.
    pub fn name(self) -> &'static str
        ensures { result.now ≡ name_of self }
    {
        match self {
            Word::Served => "Served",
            Word::Short => "Short",
            Word::Tag => "Tag",
            Word::Zero => "Zero",
            Word::Garbled => "Garbled",
            Word::Gone => "Gone",
            Word::Stale => "Stale",
            Word::Tight => "Tight",
            Word::Crowded => "Crowded",
            Word::NumberedOut => "Numbered out",
            Word::Declined => "Declined",
            Word::Deep => "Deep",
            Word::Unopened => "Unopened",
            Word::Sheet => "Sheet",
            Word::SheetShort => "Sheet short",
            Word::Name => "Name",
            Word::Raw => "Raw",
            Word::Hosts => "Host's",
        }
    }
}

// Where a fault arose.
#[derive(Clone, Copy, Debug, PartialEq, Eq)]
pub enum Layer {
    Bytes = 1,
    Stores = 2,
    Servers = 3,
    Session = 4,
}

impl Layer {
    // 1 for bytes, 2 for stores, 3 for servers, 4 for the session.
    pub fn number(self) -> u8
        ensures { result ≡ layer_number self }
    {
        // the layer's discriminant
        self as u8
    }
}

// What the bytes of a value, or a sheet, can have wrong.
#[derive(Clone, Copy)]
pub enum ByteWord {
    Short,
    Tag,
    Zero,
    Garbled,
    Deep,
    Sheet,
}

impl From<ByteWord> for Word {
    ghost from_gives = { λ w r. r ≡ byte_word w };

    fn from(word: ByteWord) -> Word {
        match word {
            ByteWord::Short => Word::Short,
            ByteWord::Tag => Word::Tag,
            ByteWord::Zero => Word::Zero,
            ByteWord::Garbled => Word::Garbled,
            ByteWord::Deep => Word::Deep,
            ByteWord::Sheet => Word::Sheet,
        }
    }
}

// What a store of handles refuses.
#[derive(Clone, Copy)]
pub enum StoreWord {
    Gone,
    Crowded,
    NumberedOut,
    Unopened,
}

impl From<StoreWord> for Word {
    ghost from_gives = { λ w r. r ≡ store_word w };

    fn from(word: StoreWord) -> Word {
        match word {
            StoreWord::Gone => Word::Gone,
            StoreWord::Crowded => Word::Crowded,
            StoreWord::NumberedOut => Word::NumberedOut,
            StoreWord::Unopened => Word::Unopened,
        }
    }
}

// What a server or an interner refuses. Garbled, Tight and Unopened are those of direct calls.
#[derive(Clone, Copy)]
pub enum ServerWord {
    Garbled,
    Stale,
    Tight,
    NumberedOut,
    Declined,
    Unopened,
    Name,
    Raw,
    Hosts,
}

impl From<ServerWord> for Word {
    ghost from_gives = { λ w r. r ≡ server_word w };

    fn from(word: ServerWord) -> Word {
        match word {
            ServerWord::Garbled => Word::Garbled,
            ServerWord::Stale => Word::Stale,
            ServerWord::Tight => Word::Tight,
            ServerWord::NumberedOut => Word::NumberedOut,
            ServerWord::Declined => Word::Declined,
            ServerWord::Unopened => Word::Unopened,
            ServerWord::Name => Word::Name,
            ServerWord::Raw => Word::Raw,
            ServerWord::Hosts => Word::Hosts,
        }
    }
}

// What a session refuses by itself.
#[derive(Clone, Copy)]
pub enum SessionWord {
    Tight,
    SheetShort,
}

impl From<SessionWord> for Word {
    ghost from_gives = { λ w r. r ≡ session_word w };

    fn from(word: SessionWord) -> Word {
        match word {
            SessionWord::Tight => Word::Tight,
            SessionWord::SheetShort => Word::SheetShort,
        }
    }
}

#[derive(Clone, Copy)]
pub struct ByteFault {
    pub word: ByteWord,
    pub place: u64,
}

#[derive(Clone, Copy)]
pub enum StoreFault {
    Byte(ByteFault),
    Store(StoreWord, u64),
}

// Two enums and no generic one: `ServerFault::Server` says the layer wherever a fault is made or matched.
#[derive(Clone, Copy)]
pub enum ServerFault {
    Byte(ByteFault),
    Server(ServerWord, u64),
}

#[derive(Clone, Copy)]
pub enum SessionFault {
    Byte(ByteFault),
    Store(StoreFault),
    Server(ServerFault),
    Session(SessionWord, u64),
}

impl ByteWord {
    // The fault at a place.
    pub fn at(self, place: usize) -> ByteFault
        ensures word { result.word ≡ self }
        ensures place { result.place ≡ place }
    {
        ByteFault {
            word: self,
            place: place as u64,
        }
    }
}

impl ServerWord {
    // The fault at a place.
    pub fn at(self, place: usize) -> ServerFault
        ensures { result ≡ ServerFault.Server self place }
    {
        ServerFault::Server(self, place as u64)
    }
}

// Three `at` of a line each: the variant that it makes says the layer.
impl SessionWord {
    // The fault at a place.
    pub fn at(self, place: usize) -> SessionFault
        ensures { result ≡ SessionFault.Session self place }
    {
        SessionFault::Session(self, place as u64)
    }
}

// A refusal as it is told: the word, the place, and the layer that the fault arose in.
#[derive(Clone, Copy, Debug, PartialEq, Eq)]
pub struct Report {
    pub word: Word,
    pub place: u64,
    pub layer: Layer,
}

impl From<ByteFault> for Report {
    ghost from_gives = { λ f r. r ≡ byte_report f };

    fn from(fault: ByteFault) -> Report {
        Report {
            word: fault.word.into(),
            place: fault.place,
            layer: Layer::Bytes,
        }
    }
}

impl From<StoreFault> for Report {
    ghost from_gives = { λ f r. r ≡ store_report f };

    fn from(fault: StoreFault) -> Report {
        match fault {
            StoreFault::Byte(inner) => inner.into(),
            StoreFault::Store(word, place) => Report {
                word: word.into(),
                place,
                layer: Layer::Stores,
            },
        }
    }
}

impl From<ServerFault> for Report {
    ghost from_gives = { λ f r. r ≡ server_report f };

    fn from(fault: ServerFault) -> Report {
        match fault {
            ServerFault::Byte(inner) => inner.into(),
            ServerFault::Server(word, place) => Report {
                word: word.into(),
                place,
                layer: Layer::Servers,
            },
        }
    }
}

impl From<SessionFault> for Report {
    ghost from_gives = { λ f r. r ≡ session_report f };

    fn from(fault: SessionFault) -> Report {
        match fault {
            SessionFault::Byte(inner) => inner.into(),
            SessionFault::Store(inner) => inner.into(),
            SessionFault::Server(inner) => inner.into(),
            SessionFault::Session(word, place) => Report {
                word: word.into(),
                place,
                layer: Layer::Session,
            },
        }
    }
}

impl From<ByteFault> for StoreFault {
    ghost from_gives = { λ f r. r ≡ byte_in_store f };

    fn from(lower: ByteFault) -> StoreFault {
        StoreFault::Byte(lower)
    }
}

impl From<ByteFault> for ServerFault {
    ghost from_gives = { λ f r. r ≡ byte_in_server f };

    fn from(lower: ByteFault) -> ServerFault {
        ServerFault::Byte(lower)
    }
}

impl From<ByteFault> for SessionFault {
    ghost from_gives = { λ f r. r ≡ byte_in_session f };

    fn from(lower: ByteFault) -> SessionFault {
        SessionFault::Byte(lower)
    }
}

impl From<StoreFault> for SessionFault {
    ghost from_gives = { λ f r. r ≡ store_in_session f };

    fn from(lower: StoreFault) -> SessionFault {
        SessionFault::Store(lower)
    }
}

impl From<ServerFault> for SessionFault {
    ghost from_gives = { λ f r. r ≡ server_in_session f };

    fn from(lower: ServerFault) -> SessionFault {
        SessionFault::Server(lower)
    }
}
