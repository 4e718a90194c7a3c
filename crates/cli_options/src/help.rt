//! The texts of help. A line feed ends a line of what is printed: at most 80 characters, with the words before it (51 of the help of a
//! word, 69 of what a subcommand does).

pub(crate) const LADDER_ABOUT: &str =
    "Checks ladder diagrams, lists what switches a coil on, shows why, and
simulates (IEC 61131-3 drawn in characters)";

pub(crate) const FAULTS: &str =
    "A line `fault CODE ..` on standard error says what is wrong, and where:
  V1 to V9    the declarations break a rule on that line
  A1          the alias on that line is a name or another alias (--aliases)
  G1 to G15   the drawing breaks a rule in that rung, on that line
  C1 to C9    there is no list, or no scan to show, for this question
  X1 to X7    a file can't be read, or a word or record of it is bad;
              X6: a write failed; X7: out of memory
  P1 to P8    the file is no project of ClassicLadder, or has what can't be
              carried over
  N1 to N7    the same of a project in PLCopen XML
  T1 to T10   the text is no program in Structured Text, or can't be drawn
  E1 to E4    the program can't be exported as it is asked to
  usage       the words are not those of a request
`ladder explain CODE` says more of each, and `ladder help COMMAND` has examples.
Status: 0 all was written, 1 a fault stopped it, 2 wrong words.
Documents: README.md and docs/ of the repository.";

pub(crate) const CHECK_ABOUT: &str =
    "Checks a program, and prints how many rungs, variables and instances
it has";

pub(crate) const CAUSES_ABOUT: &str =
    "Lists each assignment of the inputs after which one scan leaves the
coil ON, with the first input most significant";

pub(crate) const SHOW_ABOUT: &str = "Prints the drawing with the power flow of one scan: live wires,
closed contacts, coils that are ON";

pub(crate) const SIM_ABOUT: &str =
    "Scans a stimulus record by record, and prints the outputs after each
scan";

pub(crate) const USES_ABOUT: &str =
    "Prints where each variable and each instance is drawn: rung, row and
column";

pub(crate) const NEVER_ABOUT: &str =
    "Lists the variables and outputs of blocks that can never come ON from
the state on, whatever the inputs do, with the places where they are
drawn";

pub(crate) const NEVER_OFF_HELP: &str = "Lists the variables and outputs of blocks that are
ON and can never go OFF, in place of what can never
come ON";

pub(crate) const REACH_ABOUT: &str =
    "Writes a run that switches NAME on, as a stimulus for `sim` and
`show`, or says that there is none";

pub(crate) const REACH_AT_HELP: &str = "The moment from which on the scans are, in ms;
without it the stored one";

pub(crate) const REACH_EVERY_HELP: &str = "One scan every MS ms, from 1 on; without it the
scans are at any moments that don't fall, so a run
need not exist in the rhythm of a controller";

pub(crate) const REACH_SCANS_HELP: &str = "With --every: looks for runs of at most N scans,
from 1 on; without it their number is free";

pub(crate) const REACH_STATES_HELP: &str = "How many states the search keeps at most, up to
4294967295; without it 100000. Where they don't
suffice the answer is `unsettled`";

pub(crate) const REACH_BOTH_HELP: &str = "Looks for NAME and this one both ON after the same
scan; named as NAME is";

pub(crate) const REACH_GAP_HELP: &str = "How far apart the scans are where they can be, in
ms; without it 10; not with --every";

pub(crate) const REACH_PROGRESS_HELP: &str = "Tells on standard error, about once a second, how
far the search is: `states M scans N`";

pub(crate) const REACH_NAME_HELP: &str = "What is to come ON: a variable that a coil writes,
or the output of a block (T1.Q), in any letter case";

pub(crate) const REACH_INPUTS_HELP: &str = "Inputs that change; the others keep what the state
stores. Without one all inputs change";

pub(crate) const DIFF_ABOUT: &str =
    "Says what a change of a program changes: of each name, or with which
combinations of inputs a coil is left different";

pub(crate) const OLD_HELP: &str = "The program text before the change";

pub(crate) const NEW_HELP: &str = "The program text after it";

pub(crate) const DIFF_STATE_HELP: &str = "A saved state of OLD, which is carried over to NEW
by the names of both; without it each begins in its
fresh state";

pub(crate) const NEW_STATE_HELP: &str = "A saved state of NEW, in place of what would be
carried over";

pub(crate) const DIFF_AT_HELP: &str = "The moment of the scan of both, in ms; without it
the one that each state stores";

pub(crate) const DIFF_AFTER_HELP: &str = "Lists the rows with a greater number than N only;
not with --grouped, --scans or --for";

pub(crate) const DIFF_UPTO_HELP: &str = "Ends the list at the number N; not with --grouped,
--scans or --for";

pub(crate) const DIFF_SCANS_HELP: &str = "Lists over N scans, at most 1000000, with the
inputs held: each combination with which the first
scan that leaves the coil ON differs between OLD
and NEW, and both scans, - for none";

pub(crate) const DIFF_COIL_HELP: &str = "A variable that a coil of both programs writes, in
any letter case; without it each variable and block
is judged, from all states";

pub(crate) const DIFF_LOOKS_HELP: &str = "Without a COIL: how many scans of each program a
verdict takes at most; without it 10000";

pub(crate) const DIFF_REACHABLE_HELP: &str = "Without a COIL: counts only states in which all is
so that `ladder never` and `ladder never --off`
list of each program, and of no pair of
`ladder never --pairs` both are ON, as in each
state that the machine reaches";

pub(crate) const DIFF_RUNS_HELP: &str = "Without a COIL: judges runs of both programs from
their fresh states, with the same inputs at the
same moments: `same` where no run ever leaves a
name different, `differs` where one does";

pub(crate) const DIFF_STATES_HELP: &str = "With --runs: a search keeps at most N states, up to
4294967295; 100000 without the option";

pub(crate) const DIFF_SAVE_HELP: &str = "Without a COIL: the folder that gets, for each row
`differs`, the states that show it, NAME.old.csv
and NAME.new.csv, and NAME.csv, a stimulus with the
scan's moment";

pub(crate) const DIFF_INPUTS_HELP: &str = "Inputs of both programs to list, at most 32; the
others keep what the state of each stores";

pub(crate) const DIFF_GROUPED_HELP: &str = "A row for each group: first the combinations with
which OLD alone leaves the coil ON, then those of
NEW alone";

pub(crate) const DIFF_TERMS_HELP: &str = "With --grouped: each row is the inputs that matter,
joined by AND, after `-` where OLD alone leaves the
coil ON, and `+` where NEW alone does";

pub(crate) const DIFF_STATEMENT_HELP: &str = "With --grouped: two statements in Structured Text,
COIL_old for what OLD alone does and COIL_new for
what NEW alone does";

pub(crate) const DIFF_ORDER_HELP: &str = "With --grouped: `auto` lists the inputs in an order
in which OLD's causes have fewer groups, `given`
keeps that of the list (as without it)";

pub(crate) const DIFF_PROGRESS_HELP: &str = "Tells on standard error up to which number the list
is written: `reached N`; not with --grouped,
--scans or --for";

pub(crate) const DIFF_ALL_HELP: &str = "Lists all inputs that both programs have, in the
order of OLD";

pub(crate) const DRAW_ABOUT: &str =
    "Draws a program in Structured Text: writes the program text whose
scan does what its statements do, or says why there is none";

pub(crate) const EXPORT_ABOUT: &str =
    "Writes a program for a controller, in Structured Text or PLCopen XML:
each run of it does what a scan of the drawing does";

pub(crate) const IMPORT_ABOUT: &str =
    "Writes the program text of a project of ClassicLadder, or of one in
PLCopen XML, or says what of it can't be carried over";

pub(crate) const EXPLAIN_ABOUT: &str =
    "Says what a fault means and what corrects it, or lists all faults";

pub(crate) const CODES_HELP: &str = "Codes of faults, as the line of a fault has them
(G4, X2, usage), in any letter case; without one
all are listed";

pub(crate) const WARN_HELP: &str = "Also prints a row for each place or name that
breaks no rule and is most likely not meant:
`warning,KIND,RUNG,ROW,COLUMN,NAME`";

pub(crate) const EXPLAIN_HELP: &str = "After the line of a fault: its rule in words, and
the lines of the program where it shows";

pub(crate) const ALIASES_HELP: &str = "Prints the aliases of the declarations";

pub(crate) const ALL_HELP: &str = "Lists all inputs, in order of declaration; not with
an INPUT";

pub(crate) const ALL_COILS_HELP: &str = "Lists each coil of the program, in a file of its
own: FOLDER/NAME.csv, .txt with --terms, .st with
--st; COIL is then left out";

pub(crate) const PAIRS_HELP: &str = "Lists pairs of variables and outputs of blocks of
which never both are ON, in place of what can never
come ON";

pub(crate) const RELEVANT_HELP: &str = "Lists the inputs that matter to the coil in this
scan, and those of what is assumed, in order of
declaration: no other makes a difference; not with
an INPUT";

pub(crate) const PROGRESS_HELP: &str = "Tells on standard error, about once a second, up to
which number the list is written: `reached N`; not
with --grouped, --scans, --for, --any or --relevant";

pub(crate) const QUIET_HELP: &str = "Writes no line of counts on standard error; faults
stay";

pub(crate) const FILE_HELP: &str = "The program: declarations and rungs; at most
1048576 bytes";

pub(crate) const STATEMENTS_HELP: &str = "The program in Structured Text, at most 1048576
bytes, or `-` for standard input";

pub(crate) const EXPORT_STATEMENTS_HELP: &str = "Writes Structured Text (IEC 61131-3); this or --xml
has to be given";

pub(crate) const EXPORT_DIAGRAM_HELP: &str = "Writes a project in PLCopen XML (IEC 61131-10) with
a ladder diagram, in place of Structured Text";

pub(crate) const EXPORT_NAME_HELP: &str = "The name of the program in the text; without it
`program0`";

pub(crate) const BITS_HELP: &str = "Writes %IX13 as %IX1.5: byte 1, bit 5";

pub(crate) const CODESYS_HELP: &str = "Calls the inputs of bistables SET1, RESET, SET and
RESET1, as CODESYS does";

pub(crate) const EXPORT_ALIASES_HELP: &str = "Takes the aliases for names where they can be names,
and else writes them as comments";

pub(crate) const PROJECT_HELP: &str = "The project, of ClassicLadder (.clp) or in PLCopen
XML (.xml); at most 1048576 bytes";

pub(crate) const OPEN_HELP: &str = "Compares, steps of charts and blocks that aren't
known may have any value";

pub(crate) const CONTROL_HELP: &str = "`on`: a timer without a control input has it ON";

pub(crate) const HAL_HELP: &str = "A HAL file: inputs and outputs without a name in
the project are named after its signals";

pub(crate) const POU_HELP: &str = "In PLCopen XML: the program with this name, as the
project spells it; without it the only one";

pub(crate) const COIL_HELP: &str = "The variable of a coil, in any letter case; left
out with --all-coils alone";

pub(crate) const INPUTS_HELP: &str = "Inputs to list, at most 32; the others keep what
the state stores";

pub(crate) const STIMULUS_HELP: &str = "The stimulus, CSV: `moment,INPUT,..`, then a moment
in ms and a 0 or 1 for each input; at most 16777216
bytes";

pub(crate) const STATE_HELP: &str = "The state to begin in, as --save writes it; without
it the fresh state";

pub(crate) const WAVES_HELP: &str = "Writes a waveform in place of the trace, a value
change dump (IEEE 1364) of all variables and
outputs of blocks, for GTKWave and the like; not
with --save";

pub(crate) const WATCH_HELP: &str = "Also prints a variable, or of a block its output
and its elapsed time in ms (NAME.ET) or its count
(NAME.CV); may be given several times; not with
--vcd";

pub(crate) const WATCH_ALL_HELP: &str = "Also prints all memory variables and then all
blocks so, in order of declaration; not with
--watch or --vcd";

pub(crate) const CHANGES_HELP: &str = "Rows only where more than the moment changes;
not with --vcd";

pub(crate) const EXPECT_HELP: &str = "Prints in place of the trace the first row that
differs from TRACE, which `ladder sim` has printed,
with status 1; not with --vcd";

pub(crate) const SIM_PROGRESS_HELP: &str = "Tells on standard error, about once a second, up to
which moment all scans are made; not with --vcd";

pub(crate) const SAVE_HELP: &str = "The file that gets the state after the last scan";

pub(crate) const HOLD_HELP: &str = "Also scans between the records, with their inputs
held, as a controller does: MS, 2 MS, .. after a
record, before the next one; from 1 on";

pub(crate) const AT_HELP: &str = "The moment of the scan in ms, not before the stored
one; without it the stored one";

pub(crate) const AFTER_HELP: &str = "Lists the causes with a greater number than N only";

pub(crate) const UPTO_HELP: &str = "Ends the list at the number N: parts between two
numbers, one after the other, are the whole list;
not with --grouped, --scans, --for, --any or
--relevant";

pub(crate) const LIMIT_HELP: &str = "Lists at most N rows";

pub(crate) const SCANS_HELP: &str = "Lists over N scans, at most 1000000, with the
inputs held: each assignment after one of which the
coil is ON, and the first such scan; not with
--after";

pub(crate) const FOR_HELP: &str = "In place of --scans: all scans up to MS after the
first one, and at it";

pub(crate) const EVERY_HELP: &str = "With --scans or --for: the time from each scan to
the next in ms; without it 10";

pub(crate) const NUMBER_HELP: &str = "The number of the row that a list of causes has for
these inputs; without it 0, all of them OFF";

pub(crate) const FILM_HELP: &str = "Shows one scan for each record of a stimulus, as
`ladder sim` makes it; at most 1000 records; not
with --at, --number or INPUT";

pub(crate) const HTML_HELP: &str = "Writes one page of HTML, with lines in place of the
characters, for a browser and for printing";

pub(crate) const WHY_HELP: &str = "Writes below the drawing whether there is power at
each coil of this variable, and if not, where power
ends";

pub(crate) const SHOWN_HELP: &str = "The inputs of that list, at most 32, the first one
most significant; the others keep what the state
stores";

pub(crate) const ASSUME_HELP: &str = "Counts only combinations with which EXPRESSION, in
Structured Text over inputs, is true; may be given
several times";

pub(crate) const ASSUMED_HELP: &str = "Counts only combinations with which each EXPRESSION
of the comments (* assume: EXPRESSION *) before
END_VAR is true";

pub(crate) const SCANS_ASSUME_HELP: &str = "Counts only scans with whose inputs EXPRESSION, in
Structured Text over inputs, is true; may be given
several times";

pub(crate) const SCANS_ASSUMED_HELP: &str = "Counts only scans with whose inputs each EXPRESSION
of the comments (* assume: EXPRESSION *) before
END_VAR is true";

pub(crate) const DIFF_ASSUME_HELP: &str = "Counts only scans with whose inputs EXPRESSION, in
Structured Text over inputs, is true in both
programs; may be given several times";

pub(crate) const DIFF_ASSUMED_HELP: &str = "Counts only scans with whose inputs each EXPRESSION
of the comments (* assume: EXPRESSION *) before
END_VAR is true in its program";

pub(crate) const SHOW_ASSUME_HELP: &str = "Refuses a combination with which EXPRESSION, in
Structured Text over inputs, is false, and names it
below the drawing; may be given several times; not
with --html or --stimulus";

pub(crate) const SHOW_ASSUMED_HELP: &str = "The same for each EXPRESSION of the comments
(* assume: EXPRESSION *) before END_VAR; not with
--html or --stimulus";

pub(crate) const GROUPED_HELP: &str = "Lists the causes in groups: how many each has, and
- for an input that doesn't matter there; not with
--after";

pub(crate) const TERMS_HELP: &str = "With --grouped: writes each group as the inputs
that matter, joined by AND, without a header";

pub(crate) const STATEMENT_HELP: &str = "With --grouped: writes the groups as one statement
in Structured Text; not with --limit, --terms or
--aliases";

pub(crate) const ORDER_HELP: &str = "With --grouped: `auto` looks for an order of the
inputs with fewer groups, `given` keeps that of the
list (as without it)";

pub(crate) const ANY_HELP: &str = "Lists what some state, at some moment, switches on:
a row for each such assignment, marked ? where that
isn't settled; not with --at, --after, --scans,
--for or --every; --state only with --runs";

pub(crate) const OFF_HELP: &str = "With --any: counts only states in which the coil is
OFF, so lists what can switch it ON";

pub(crate) const MUST_HELP: &str = "With --any: lists what leaves the coil ON from
every state, at every moment, in place of from some
one";

pub(crate) const REACHABLE_HELP: &str = "With --any: counts only states in which all is so
that `ladder never` and `ladder never --off` list,
and of no pair of `ladder never --pairs` both are
ON, as in each state that the machine reaches";

pub(crate) const LOOKS_HELP: &str = "With --any: how many scans a search for one row
makes at most, up to 4294967295; without it 4096";

pub(crate) const RUNS_HELP: &str = "With --any: asks of each row whether a run from the
fresh state, or from STATE, comes to it: marked r
where one does, left out where none does, 1 or ? as
before where that isn't settled; not with --off,
--must or --grouped";

pub(crate) const RUN_STATES_HELP: &str = "With --runs: how many states the search of one row
keeps at most, up to 4294967295; without it 100000";
