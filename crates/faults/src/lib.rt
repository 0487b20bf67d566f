// Why a call was refused: one enum for each layer, and one for a refusal of any layer.
#![tactic(auto)]

ghost use Rattle.std.specs.Prelude.{◌≡◌, Some};
ghost use Rattle.faults.specs.declared.Fault.TheVariants.{File, List, Document, Store};
ghost use Rattle.faults.specs.Numbers.{report, told_file, told_list, told_document, told_store, told_book, told};
ghost use Rattle.faults.specs.Shown.{shown};

use std::fmt;

// Number, layer and place, as a refusal is reported.
#[derive(Clone, Copy, PartialEq, Eq, Debug)]
pub struct Report {
    pub number: u8,
    pub layer: u8,
    pub place: usize,
}

impl Report {
    fn new(number: u8, layer: u8, place: usize) -> Report
        ensures { result ≡ report number layer place }
    {
        Report {
            number,
            layer,
            place,
        }
    }
}

// Three numbers with a blank between them.
impl fmt::Display for Report {
    ghost output = { λ report. Some (shown report) };

    fn fmt<W: fmt::Write>(&self, f: &mut fmt::Formatter<W>) -> fmt::Result {
        write!(f, "{} {} {}", self.number, self.layer, self.place)
    }
}

// A file that cannot be read, or a table too short for what a file holds. The place is a record of the file.
#[derive(Clone, Copy, PartialEq, Eq, Debug)]
pub enum FileFault {
    Length(usize),
    Structure(usize),
    Misformed(usize),
    TableShort,
}

// A change list that is none, or does not suit the document. The place is an operation.
#[derive(Clone, Copy, PartialEq, Eq, Debug)]
pub enum ListFault {
    Structure(usize),
    Misformed(usize),
    IdentifierTaken(usize),
    NoTrees(usize),
    NodesUnsuited(usize),
    TargetAbsent(usize),
    TargetUnsuited(usize),
    SecondOfCode(usize),
    NameTaken(usize),
    NoRoom,
}

// A node table that is no document, or scratch memory too short to test it. The place is a node of the table.
#[derive(Clone, Copy, PartialEq, Eq, Debug)]
pub enum DocumentFault {
    ScratchShort,
    Misformed(usize),
    IdentifierTwice(usize),
    OutOfOrder(usize),
    NameTwice(usize),
    NoRoom(usize),
}

// A question or a write that a store refuses.
#[derive(Clone, Copy, PartialEq, Eq, Debug)]
pub enum StoreFault {
    // The node is not well formed, or a name is 0.
    Misformed,
    // The identifier is there already.
    Known,
    // No node has the identifier.
    Absent,
    // The node cannot stand there, or cannot be changed so.
    Unsuited,
    // The store has as many nodes as room.
    Full,
}

// A call of the book that is refused.
#[derive(Clone, Copy, PartialEq, Eq, Debug)]
pub enum BookFault {
    // The table is too short for the answer.
    TableShort,
}

// A refusal of any layer, as a session meets it.
#[derive(Clone, Copy, PartialEq, Eq, Debug)]
pub enum Fault {
    File(FileFault),
    List(ListFault),
    Document(DocumentFault),
    Store(StoreFault),
}

impl From<FileFault> for Fault {
    ghost from_gives = { λ f r. r ≡ File f };

    fn from(value: FileFault) -> Fault {
        Fault::File(value)
    }
}

impl From<ListFault> for Fault {
    ghost from_gives = { λ f r. r ≡ List f };

    fn from(value: ListFault) -> Fault {
        Fault::List(value)
    }
}

impl From<DocumentFault> for Fault {
    ghost from_gives = { λ f r. r ≡ Document f };

    fn from(value: DocumentFault) -> Fault {
        Fault::Document(value)
    }
}

impl From<StoreFault> for Fault {
    ghost from_gives = { λ f r. r ≡ Store f };

    fn from(value: StoreFault) -> Fault {
        Fault::Store(value)
    }
}

impl From<FileFault> for Report {
    ghost from_gives = { λ fault told. told ≡ told_file fault };

    fn from(fault: FileFault) -> Report {
        match fault {
            FileFault::Length(place) => Report::new(1, 1, place),
            FileFault::Structure(place) => Report::new(2, 1, place),
            FileFault::Misformed(place) => Report::new(3, 1, place),
            FileFault::TableShort => Report::new(22, 1, 0),
        }
    }
}

impl From<ListFault> for Report {
    ghost from_gives = { λ fault told. told ≡ told_list fault };

    fn from(fault: ListFault) -> Report {
        match fault {
            ListFault::Structure(place) => Report::new(2, 2, place),
            ListFault::Misformed(place) => Report::new(3, 2, place),
            ListFault::IdentifierTaken(place) => Report::new(8, 2, place),
            ListFault::NoTrees(place) => Report::new(9, 2, place),
            ListFault::NodesUnsuited(place) => Report::new(10, 2, place),
            ListFault::TargetAbsent(place) => Report::new(11, 2, place),
            ListFault::TargetUnsuited(place) => Report::new(12, 2, place),
            ListFault::SecondOfCode(place) => Report::new(13, 2, place),
            ListFault::NameTaken(place) => Report::new(14, 2, place),
            ListFault::NoRoom => Report::new(15, 2, 0),
        }
    }
}

impl From<DocumentFault> for Report {
    ghost from_gives = { λ fault told. told ≡ told_document fault };

    fn from(fault: DocumentFault) -> Report {
        match fault {
            DocumentFault::ScratchShort => Report::new(21, 3, 0),
            DocumentFault::Misformed(place) => Report::new(3, 3, place),
            DocumentFault::IdentifierTwice(place) => Report::new(4, 3, place),
            DocumentFault::OutOfOrder(place) => Report::new(5, 3, place),
            DocumentFault::NameTwice(place) => Report::new(6, 3, place),
            DocumentFault::NoRoom(place) => Report::new(7, 3, place),
        }
    }
}

impl From<StoreFault> for Report {
    ghost from_gives = { λ fault told. told ≡ told_store fault };

    fn from(fault: StoreFault) -> Report {
        match fault {
            StoreFault::Misformed => Report::new(3, 4, 0),
            StoreFault::Known => Report::new(8, 4, 0),
            StoreFault::Absent => Report::new(11, 4, 0),
            StoreFault::Unsuited => Report::new(12, 4, 0),
            StoreFault::Full => Report::new(15, 4, 0),
        }
    }
}

impl From<BookFault> for Report {
    ghost from_gives = { λ fault told. told ≡ told_book fault };

    fn from(fault: BookFault) -> Report {
        match fault {
            BookFault::TableShort => Report::new(22, 5, 0),
        }
    }
}

impl From<Fault> for Report {
    ghost from_gives = { λ fault report. report ≡ told fault };

    fn from(fault: Fault) -> Report {
        match fault {
            Fault::File(fault) => fault.into(),
            Fault::List(fault) => fault.into(),
            Fault::Document(fault) => fault.into(),
            Fault::Store(fault) => fault.into(),
        }
    }
}
