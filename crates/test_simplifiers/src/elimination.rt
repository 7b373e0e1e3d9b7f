// Rows of `simp_elim`.
use crate::rows::Row;
use simp_base::Run;

pub(crate) const ROWS: &[Row] = &[
    Row {
        clauses: &[1, 3, 0, 2, -3, 0],
        answer: Run::Done,
        text: "d 1 3 0\nd 2 -3 0\n",
        units: &[],
        left: 0,
    },
    Row {
        clauses: &[1, 2, 0, 1, 4, 0, -1, 3, 0],
        answer: Run::Done,
        text: "2 3 0\n3 4 0\nd 1 2 0\nd 1 4 0\nd -1 3 0\nd 2 3 0\nd 3 4 0\n",
        units: &[],
        left: 0,
    },
    Row {
        clauses: &[1, 2, 0, -1, 2, 0, 3, 0, 3, 4, 0, 4, -4, 0],
        answer: Run::Done,
        text: "2 0\nd 1 2 0\nd -1 2 0\nd 3 4 0\n",
        units: &[2],
        left: 3,
    },
];
