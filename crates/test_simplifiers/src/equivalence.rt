// Rows of `simp_equiv`.
use crate::rows::Row;
use simp_base::Run;

pub(crate) const ROWS: &[Row] = &[
    Row {
        clauses: &[1, -2, 0, -1, 2, 0, 1, 2, 3, 0],
        answer: Run::Done,
        text: "1 3 0\nd 1 -2 0\nd -1 2 0\nd 1 2 3 0\n",
        units: &[],
        left: 1,
    },
    Row {
        clauses: &[1, 2, 0, 1, -2, 0, -1, 2, 0, -1, -2, 0],
        answer: Run::Refuted,
        text: "-1 0\n0\n",
        units: &[-1],
        left: 6,
    },
    Row {
        clauses: &[3, 0, 2, 3, 0, -2, -3, 0, 1, -1, 2, 0],
        answer: Run::Done,
        text: "",
        units: &[],
        left: 4,
    },
    Row {
        clauses: &[1, 2, 0, -1, -2, 0, -1, 2, 0],
        answer: Run::Done,
        text: "-1 0\nd 1 2 0\nd -1 -2 0\nd -1 2 0\n",
        units: &[-1],
        left: 1,
    },
];
