// Rows of `simp_units`.
use crate::rows::Row;
use simp_base::Run;

pub(crate) const ROWS: &[Row] = &[
    Row {
        clauses: &[1, 0, -1, 2, 0],
        answer: Run::Done,
        text: "2 0\nd -1 2 0\n",
        units: &[1, 2],
        left: 2,
    },
    Row {
        clauses: &[1, 0, -1, 2, 3, 0],
        answer: Run::Done,
        text: "2 3 0\nd -1 2 3 0\n",
        units: &[1],
        left: 2,
    },
    Row {
        clauses: &[1, 0, 1, -1, 2, 0, 2, 3, 0, 2, 3, 0],
        answer: Run::Done,
        text: "",
        units: &[1],
        left: 4,
    },
    Row {
        clauses: &[1, 0, -1, 0],
        answer: Run::Refuted,
        text: "0\n",
        units: &[1],
        left: 3,
    },
    Row {
        clauses: &[2, 3, 0, 0],
        answer: Run::Refuted,
        text: "0\n",
        units: &[],
        left: 3,
    },
];
