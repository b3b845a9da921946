// Roads, carts and paths, and why tables are turned down. The definitions are in specs/.
#![tactic(auto)]

ghost use Rattle.std.specs.Prelude.{◌≡◌};
ghost use Rattle.floor.specs.Refusal.{reason_number, table_number};

// A road: "Length is in micrometres"; "A road runs both ways".
#[derive(Clone, Copy, Debug, PartialEq, Eq)]
pub struct Road {
    pub from: u32,
    pub to: u32,
    pub length: u32,
    pub margin: u32,
}

// A cart: "Speeds are in micrometres per second"; an empty slowest "means none".
#[derive(Clone, Copy, Debug, PartialEq, Eq)]
pub struct Cart {
    pub fastest: u64,
    pub slowest: Option<u64>,
}

// Why a load is turned down because of its tables; specs/Refusal.antt gives each case its number.
#[derive(Clone, Copy, Debug, PartialEq, Eq)]
pub enum Reason {
    Layout,
    Range,
    RoadPair,
    Limit,
    NoCarts,
    PathCount,
    OffRoad,
    SameCell,
    Exchange,
}

#[derive(Clone, Copy, Debug, PartialEq, Eq)]
pub enum Table {
    Roads,
    Carts,
    Paths,
}

// A refusal: its reason, the table, and the record counted from 1 without the first line, 0 if none: that is document 01's own number.
#[derive(Clone, Copy, Debug, PartialEq, Eq)]
pub struct Refusal {
    pub reason: Reason,
    pub table: Table,
    pub row: usize,
}

impl Table {
    // The refusal of this table for a reason, at a record.
    pub fn refuses(self, reason: Reason, row: usize) -> Refusal
        ensures { result ≡ record { reason = reason; table = self; row = row } }
    {
        Refusal {
            reason,
            table: self,
            row,
        }
    }
}

// The number of a reason.
impl From<Reason> for u64 {
    ghost from_gives = { λ reason n. n ≡ reason_number reason };

    #[tactic(auto, unfolding(crate::specs::Refusal::reason_number))]
    fn from(reason: Reason) -> u64 {
        match reason {
            Reason::Layout => 1,
            Reason::Range => 2,
            Reason::RoadPair => 3,
            Reason::Limit => 4,
            Reason::NoCarts => 5,
            Reason::PathCount => 6,
            Reason::OffRoad => 7,
            Reason::SameCell => 8,
            Reason::Exchange => 9,
        }
    }
}

// The number of a table.
impl From<Table> for u64 {
    ghost from_gives = { λ table n. n ≡ table_number table };

    #[tactic(auto, unfolding(crate::specs::Refusal::table_number))]
    fn from(table: Table) -> u64 {
        match table {
            Table::Roads => 1,
            Table::Carts => 2,
            Table::Paths => 3,
        }
    }
}
