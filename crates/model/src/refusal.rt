//! Why a call is turned down: the papers' items 1 to 26 by name. Their numbers are in specs/Refusals.antt, as `item_number`.
ghost use Rattle.std.specs.Prelude.{◌≡◌, ◌≤◌, Some, decimal};
ghost use Rattle.model.specs.Refusals.{item_number, tree_number, refusal_in};

use std::fmt;

// What is wrong with a tree.
#[derive(Clone, Copy, PartialEq, Eq, Debug)]
pub enum TreeFault {
    // Its length, a mark or its count.
    Shape,
    // A label is not in the table.
    Labels,
    // An edge names a vertex that is not there.
    Ends,
    // An edge closes a cycle.
    Cycle,
    // A vertex has more than 8 edges.
    Degree,
    // A known serial stands twice.
    Serials,
}

impl TreeFault {
    // The item's number, where a tree's items begin with `first` and the last is `twice`.
    fn number(self, first: u8, twice: u8) -> u8
        requires { first ≤ 8 }
        ensures { result ≡ tree_number first twice self }
    {
        match self {
            TreeFault::Shape => first,
            TreeFault::Labels => first + 1,
            TreeFault::Ends => first + 2,
            TreeFault::Cycle => first + 3,
            TreeFault::Degree => first + 4,
            TreeFault::Serials => twice,
        }
    }
}

// Why a call is turned down.
#[derive(Clone, Copy, PartialEq, Eq, Debug)]
pub enum Refusal {
    // The table's length, a mark, K or L.
    TableShape,
    // A weight of the table is out of range and not the forbidden number.
    TableWeights,
    Recorded(TreeFault),
    Found(TreeFault),
    // Too few work numbers are lent.
    WorkShort,
    // The job record is idle, its n or m no tree's, or its position too high.
    JobRecord,
    // Its n and m are not those of the trees.
    JobTrees,
    // A work number before the position is none that a job stores.
    WorkNumber,
    // The job to be finished has subproblems left.
    JobUnfinished,
    MappingShort,
    CertificateShort,
    // The certificate's length, a mark, n or m.
    CertificateShape,
    CertificateMapping,
    // Its weight is not that mapping's.
    CertificateWeight,
    // A subproblem record.
    CertificateRecord,
    // Its weight is not the greater of 0 and the largest value with s = v.
    CertificateAnswer,
}

impl Refusal {
    // The number of the papers' item.
    pub fn number(self) -> u8
        ensures { result ≡ item_number self }
    {
        match self {
            Refusal::TableShape => 1,
            Refusal::TableWeights => 2,
            Refusal::Recorded(fault) => fault.number(3, 25),
            Refusal::Found(fault) => fault.number(8, 26),
            Refusal::WorkShort => 13,
            Refusal::JobRecord => 14,
            Refusal::JobTrees => 15,
            Refusal::WorkNumber => 16,
            Refusal::JobUnfinished => 17,
            Refusal::MappingShort => 18,
            Refusal::CertificateShort => 19,
            Refusal::CertificateShape => 20,
            Refusal::CertificateMapping => 21,
            Refusal::CertificateWeight => 22,
            Refusal::CertificateRecord => 23,
            Refusal::CertificateAnswer => 24,
        }
    }
}

// The number that C and the programs are told: the item's, 0 where none turned the call down.
pub fn refusal_in(answer: Result<(), Refusal>) -> u8
    ensures { result ≡ refusal_in answer }
{
    match answer {
        Ok(()) => 0,
        Err(refusal) => refusal.number(),
    }
}

impl From<Refusal> for u32 {
    ghost from_gives = { λ e k. k ≡ item_number e };

    fn from(refusal: Refusal) -> u32 {
        u32::from(refusal.number())
    }
}

// "A refusal gives its number only."
impl fmt::Display for Refusal {
    ghost output = { λ e. Some (decimal (item_number e)) };

    fn fmt<W: fmt::Write>(&self, f: &mut fmt::Formatter<W>) -> fmt::Result {
        write!(f, "{}", self.number())
    }
}
