//! Laws over the definitions: functions that do nothing, and whose clauses are the laws.

ghost use Rattle.std.specs.Prelude.{◌≡◌, ℕ, List, Option, Some};
ghost use Rattle.diagram_page.specs.Form.{HasForm, IsFormOf};
ghost use Rattle.diagram_page.specs.Gap.{label_in, IsLabelIn};
ghost use Rattle.diagram_page.specs.Operand.{word_in, IsWordIn};
ghost use Rattle.diagram_page.specs.declared.form.Form.{Form};

/// Any characters have one form as a cell, or none.
pub fn cell_forms()
    ensures one { (chars : List ℕ) (a b : Form) → HasForm chars a → HasForm chars b → a ≡ b }
    ensures decided { (chars : List ℕ) → (form : Option Form) × IsFormOf chars form }
{}

/// The word over a cell is what is between the spaces at both ends, and there is one.
pub fn words_over_cells()
    ensures found { (chars : List ℕ) → IsWordIn chars (word_in chars) }
    ensures one { (chars a b : List ℕ) → IsWordIn chars a → IsWordIn chars b → a ≡ b }
{}

/// A line is a label exactly where it is blanks, a label's name, blanks, a colon and blanks.
pub fn label_lines()
    ensures found { (text label : List ℕ) → IsLabelIn text label → label_in text ≡ Some label }
    ensures known { (text label : List ℕ) → label_in text ≡ Some label → IsLabelIn text label }
{}
