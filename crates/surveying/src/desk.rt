// What a survey works on.
use crate::finding::Finding;
use gathering::bay::Bay;
use operations::room::Room;
use operations::row::Row;

// What is kept of the bays that were judged: a finding for each bay with operations, in ascending number, and the places of their
// value orders, one order behind the other.
#[derive(Drop)]
pub struct Kept {
    pub(crate) findings: Room<Finding>,
    pub(crate) orders: Room<usize>,
}

// Memory that is taken before a survey, and what an accepted survey leaves there.
#[derive(Drop)]
pub struct SurveyDesk<V> {
    pub(crate) rows: Room<Row<V>>,
    // The bay that is looked at.
    pub(crate) bay: Bay,
    pub(crate) kept: Kept,
}
