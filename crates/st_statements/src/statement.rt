//! Lists of statements.

use st_expression::Expression;

/// Statements in the order of their text. Variables, memories and instances go by their numbers.
#[derive(Drop)]
pub enum StatementList {
    /// None is left.
    End,
    /// `variable := value;`
    Assign {
        variable: usize,
        value: Expression,
        next: Box<StatementList>,
    },
    /// A call of an `R_TRIG`: its output is on where the clock has become on. An `F_TRIG` is one whose clock is the inverse.
    Trigger {
        output: usize,
        memory: usize,
        clock: Expression,
        next: Box<StatementList>,
    },
    /// A call of a timer, a counter or a bistable, by its two inputs. A timer doesn't look at the second one.
    Call {
        instance: usize,
        first: Expression,
        second: Expression,
        next: Box<StatementList>,
    },
    /// `IF condition THEN accepted ELSE otherwise END_IF;`
    Select {
        condition: Expression,
        accepted: Box<StatementList>,
        otherwise: Box<StatementList>,
        next: Box<StatementList>,
    },
    /// `RETURN;`, behind which nothing is run.
    Return {
        next: Box<StatementList>,
    },
}
