//! Nodes of a network: what power comes from.

use diagram_program::geometry::ROWS;

/// The right ends of some rows, just before a column. Before the first column is the left rail, whatever the rows are.
#[derive(Clone, Copy)]
pub(crate) struct Node {
    pub column: usize,
    pub rows: [bool; ROWS],
}

/// The left rail.
pub(crate) const RAIL: Node = Node {
    column: 0,
    rows: [false; ROWS],
};

impl Node {
    /// The right end of one row.
    pub(crate) fn of_row(column: usize, row: usize) -> Node {
        Node {
            column,
            rows: [false; ROWS],
        }
        .with(row)
    }

    /// These rows and one more.
    pub(crate) fn with(self, row: usize) -> Node {
        let mut rows = self.rows;
        if row < ROWS {
            rows[row] = true;
        }
        Node {
            column: self.column,
            rows,
        }
    }

    /// These rows without others.
    pub(crate) fn without(self, others: Node) -> Node {
        let mut node = Node {
            column: self.column,
            rows: [false; ROWS],
        };
        for row in 0..ROWS {
            if self.has(row) && !others.has(row) {
                node = node.with(row);
            }
        }
        node
    }

    /// Whether a row is one of them.
    pub(crate) fn has(self, row: usize) -> bool {
        row < ROWS && self.rows[row]
    }

    /// Whether there are no rows.
    pub(crate) fn is_empty(self) -> bool {
        self.rows == [false; ROWS]
    }

    /// The row, where there is just one.
    pub(crate) fn only(self) -> Option<usize> {
        let mut found = None;
        for row in 0..ROWS {
            if self.has(row) {
                if found.is_some() {
                    return None;
                }
                found = Some(row);
            }
        }
        found
    }

    /// Whether two nodes are one.
    pub(crate) fn is(self, other: Node) -> bool {
        self.column == other.column && (self.column == 0 || self.rows == other.rows)
    }
}
