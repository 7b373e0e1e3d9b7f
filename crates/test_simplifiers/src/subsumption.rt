// Rows of `simp_subsume`.
use crate::rows::Row;
use simp_base::Run;

pub(crate) const ROWS: &[Row] = &[
    Row {
        clauses: &[1, 2, 0, 1, 2, 3, 0],
        answer: Run::Done,
        text: "d 1 2 3 0\n",
        units: &[],
        left: 1,
    },
    Row {
        clauses: &[1, 2, 0, -1, 2, 3, 0],
        answer: Run::Done,
        text: "2 3 0\nd -1 2 3 0\n",
        units: &[],
        left: 2,
    },
    Row {
        clauses: &[1, 2, 0, 1, 2, 0, 1, -1, 2, 0, 3, 0, 2, 3, 0],
        answer: Run::Done,
        text: "d 1 2 0\n",
        units: &[],
        left: 4,
    },
    Row {
        clauses: &[1, 2, 3, 0, -1, 2, 3, 0, -2, 3, 0],
        answer: Run::Done,
        text: "2 3 0\nd -1 2 3 0\n1 3 0\nd 1 2 3 0\n3 0\nd 2 3 0\n",
        units: &[3],
        left: 3,
    },
];
