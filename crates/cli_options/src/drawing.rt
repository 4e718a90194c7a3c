//! The pages of a part of docs/user/faults.md: The drawing. `tests/pages.py --write` writes this file.

pub(crate) const G1: &str = "\
G1: something past the right rail

Past place 120 there may be spaces alone. A row has 10 columns.

```console
$ cat g1.ld
VAR
  A AT %IX0 : BOOL;
  Y AT %QX0 : BOOL;
END_VAR

|     A           A           A           A           A           A           A           A           A           A           Y
|----| |---------| |---------| |---------| |---------| |---------| |---------| |---------| |---------| |---------| |---------( )----
$ ladder check g1.ld
fault G1 rung 1 line 6
```

Corrected: the contacts of one row are put into two rungs, with a memory variable between them.

```console
$ cat g1_corrected.ld
VAR
  A AT %IX0 : BOOL;
  Y AT %QX0 : BOOL;
  M : BOOL;
END_VAR

|     A           A           A           A           A           A           A           A           A           M
|----| |---------| |---------| |---------| |---------| |---------| |---------| |---------| |---------| |---------( )----

|     M           A           Y
|----| |---------| |---------( )----
$ ladder check g1_corrected.ld
rungs 2 variables 3 instances 0
```
";

pub(crate) const G2: &str = "\
G2: too many lines in a rung

A rung has at most 12 lines, which are 6 rows. The line is the thirteenth. Two rungs without a blank line between them are one rung; where this keeps within 12 lines there may be no fault at all.

```console
$ cat g2.ld
VAR
  A AT %IX0 : BOOL;
  B AT %IX1 : BOOL;
  Y AT %QX0 : BOOL;
END_VAR

|     A           Y
|----| |----+----( )----
|     B     |
|----| |----+
|     B     |
|----| |----+
|     B     |
|----| |----+
|     B     |
|----| |----+
|     B     |
|----| |----+
|     B           Y
|----| |---------(S)----
$ ladder check g2.ld
fault G2 rung 1 line 19
```

Corrected, by a blank line between the rungs:

```console
$ cat g2_corrected.ld
VAR
  A AT %IX0 : BOOL;
  B AT %IX1 : BOOL;
  Y AT %QX0 : BOOL;
END_VAR

|     A           Y
|----| |----+----( )----
|     B     |
|----| |----+
|     B     |
|----| |----+
|     B     |
|----| |----+
|     B     |
|----| |----+
|     B     |
|----| |----+

|     B           Y
|----| |---------(S)----
$ ladder check g2_corrected.ld
rungs 2 variables 3 instances 0
```
";

pub(crate) const G3: &str = "\
G3: no cell

The 11 characters of a cell are not one of its forms: an unknown symbol, a symbol across a joint, or a wire on its right that ends before the cell does. Count from the rail (`docs/user/drawing.md`, the ruler).

```console
$ cat g3.ld
VAR
  A AT %IX0 : BOOL;
  Y AT %QX0 : BOOL;
END_VAR

|     A        Y
|----| |------( )----
$ ladder check g3.ld
fault G3 rung 1 line 7
```

The coil is three characters too far left, so its last dash isn't at the end of the cell. Corrected:

```console
$ cat g3_corrected.ld
VAR
  A AT %IX0 : BOOL;
  Y AT %QX0 : BOOL;
END_VAR

|     A           Y
|----| |---------( )----
$ ladder check g3_corrected.ld
rungs 1 variables 2 instances 0
```
";

pub(crate) const G4: &str = "\
G4: no joint

At a joint's place is a character that isn't allowed there, or one that doesn't fit the cells beside it: a dash without a wire on its left, a bar where a wire ends or begins. On a name line the usual cause is a name that reaches the joint: one of nine characters must begin at one of the first three places of its cell.

```console
$ cat g4.ld
VAR
  A AT %IX0 : BOOL;
  B AT %IX1 : BOOL;
  Y AT %QX0 : BOOL;
END_VAR

|     A           Y
|----| |----|----( )----
|     B     |
|----| |----|
$ ladder check g4.ld
fault G4 rung 1 line 8
```

A wire meets a vertical link in a `+`. Corrected:

```console
$ cat g4_corrected.ld
VAR
  A AT %IX0 : BOOL;
  B AT %IX1 : BOOL;
  Y AT %QX0 : BOOL;
END_VAR

|     A           Y
|----| |----+----( )----
|     B     |
|----| |----+
$ ladder check g4_corrected.ld
rungs 1 variables 3 instances 0
```
";

pub(crate) const G5: &str = "\
G5: a vertical link with a loose end

Above and below the bar on a name line there is a `+` or a bar on the wire line. The line is the one of the bar.

```console
$ cat g5.ld
VAR
  A AT %IX0 : BOOL;
  B AT %IX1 : BOOL;
  Y AT %QX0 : BOOL;
END_VAR

|     A           Y
|----| |---------( )----
|     B     |
|----| |----+
$ ladder check g5.ld
fault G5 rung 1 line 9
```

Corrected:

```console
$ cat g5_corrected.ld
VAR
  A AT %IX0 : BOOL;
  B AT %IX1 : BOOL;
  Y AT %QX0 : BOOL;
END_VAR

|     A           Y
|----| |----+----( )----
|     B     |
|----| |----+
$ ladder check g5_corrected.ld
rungs 1 variables 3 instances 0
```
";

pub(crate) const G6: &str = "\
G6: a cell that nothing feeds

The cell begins with a dash, but no wire comes to it from the left, nor through its joint.

```console
$ cat g6.ld
VAR
  A AT %IX0 : BOOL;
  Y AT %QX0 : BOOL;
END_VAR

|     A           Y
|----| |---- ----( )----
$ ladder check g6.ld
fault G6 rung 1 line 7
```

Corrected:

```console
$ cat g6_corrected.ld
VAR
  A AT %IX0 : BOOL;
  Y AT %QX0 : BOOL;
END_VAR

|     A           Y
|----| |---------( )----
$ ladder check g6_corrected.ld
rungs 1 variables 2 instances 0
```
";

pub(crate) const G7: &str = "\
G7: a symbol without a name

The line is the name line over the symbol.

```console
$ cat g7.ld
VAR
  A AT %IX0 : BOOL;
  Y AT %QX0 : BOOL;
END_VAR

|     A
|----| |---------( )----
$ ladder check g7.ld
fault G7 rung 1 line 6
```

Corrected:

```console
$ cat g7_corrected.ld
VAR
  A AT %IX0 : BOOL;
  Y AT %QX0 : BOOL;
END_VAR

|     A           Y
|----| |---------( )----
$ ladder check g7_corrected.ld
rungs 1 variables 2 instances 0
```
";

pub(crate) const G8: &str = "\
G8: a name without a symbol

There is text over a wire, an empty cell, a lower cell or a jump. A comment beside a rung gives this fault too: comments go between rungs. So does a rung of one cell without a name line. The first line of a rung is its name line, even where it has no names, and then `|` alone; a wire line in its place is G4 where it has more than one cell, and G3 on the line below it where names follow.

```console
$ cat g8.ld
VAR
  A AT %IX0 : BOOL;
  Y AT %QX0 : BOOL;
END_VAR

|     A           Y       the lamp
|----| |---------( )----
$ ladder check g8.ld
fault G8 rung 1 line 6
```

Corrected:

```console
$ cat g8_corrected.ld
VAR
  A AT %IX0 : BOOL;
  Y AT %QX0 : BOOL;
END_VAR

(* the lamp *)
|     A           Y
|----| |---------( )----
$ ladder check g8_corrected.ld
rungs 1 variables 2 instances 0
```
";

pub(crate) const G9: &str = "\
G9: a name that isn't declared

The text over a symbol, without the spaces at its ends, is neither a declared name nor one with `.Q` or `.Q1`.

```console
$ cat g9.ld
VAR
  A AT %IX0 : BOOL;
  Y AT %QX0 : BOOL;
END_VAR

|     A         Lamp
|----| |---------( )----
$ ladder check g9.ld
fault G9 rung 1 line 6
```

Corrected:

```console
$ cat g9_corrected.ld
VAR
  A AT %IX0 : BOOL;
  Y AT %QX0 : BOOL;
END_VAR

|     A           Y
|----| |---------( )----
$ ladder check g9_corrected.ld
rungs 1 variables 2 instances 0
```
";

pub(crate) const G10: &str = "\
G10: a name that this symbol can't have

A coil on an input or an instance; a contact on an instance without its output; an output that the kind hasn't (`.Q1` belongs to SR and RS, `.Q` to all others); a block of another kind than its instance.

```console
$ cat g10.ld
VAR
  A AT %IX0 : BOOL;
  Y AT %QX0 : BOOL;
  T1 : TON := (PT := T#5s);
END_VAR

|     A          T1
|----| |------|IN TON Q|

|    T1           Y
|----| |---------( )----
$ ladder check g10.ld
fault G10 rung 2 line 10
```

Corrected:

```console
$ cat g10_corrected.ld
VAR
  A AT %IX0 : BOOL;
  Y AT %QX0 : BOOL;
  T1 : TON := (PT := T#5s);
END_VAR

|     A          T1
|----| |------|IN TON Q|

|   T1.Q          Y
|----| |---------( )----
$ ladder check g10_corrected.ld
rungs 2 variables 2 instances 1
```
";

pub(crate) const G11: &str = "\
G11: a block without its lower cell, or a lower cell without its block

CTU, CTD, SR and RS have a lower cell in the next row of their column, with the input of their kind. TON, TOF and TP have none.

```console
$ cat g11.ld
VAR
  A AT %IX0 : BOOL;
  B AT %IX1 : BOOL;
  Y AT %QX0 : BOOL;
  C1 : CTU := (PV := 3);
END_VAR

|     A          C1           Y
|----| |------|CU CTU Q|-----( )----
$ ladder check g11.ld
fault G11 rung 1 line 9
```

Corrected:

```console
$ cat g11_corrected.ld
VAR
  A AT %IX0 : BOOL;
  B AT %IX1 : BOOL;
  Y AT %QX0 : BOOL;
  C1 : CTU := (PV := 3);
END_VAR

|     A          C1           Y
|----| |------|CU CTU Q|-----( )----
|     B
|----| |------|R       |
$ ladder check g11_corrected.ld
rungs 1 variables 3 instances 1
```
";

pub(crate) const G12: &str = "\
G12: an instance that is drawn twice

The line is the name line of the second one. To use its output elsewhere, draw a contact on it.

```console
$ cat g12.ld
VAR
  A AT %IX0 : BOOL;
  Y AT %QX0 : BOOL;
  T1 : TON := (PT := T#5s);
END_VAR

|     A          T1
|----| |------|IN TON Q|

|     A          T1           Y
|----| |------|IN TON Q|-----( )----
$ ladder check g12.ld
fault G12 rung 2 line 10
```

Corrected:

```console
$ cat g12_corrected.ld
VAR
  A AT %IX0 : BOOL;
  Y AT %QX0 : BOOL;
  T1 : TON := (PT := T#5s);
END_VAR

|     A          T1
|----| |------|IN TON Q|

|     A         T1.Q          Y
|----| |---------| |---------( )----
$ ladder check g12_corrected.ld
rungs 2 variables 2 instances 1
```
";

pub(crate) const G13: &str = "\
G13: a label or a jump that isn't allowed here

A line between rungs is neither blank nor a label; a label is used twice, a rung has two, or no rung follows one; a jump's label is missing, or not below it. The line is that of the label, of the jump, or of the text between the rungs.

```console
$ cat g13.ld
VAR
  A AT %IX0 : BOOL;
  Y AT %QX0 : BOOL;
END_VAR

DONE:
|     A           Y
|----| |---------( )----

|     A
|----| |---------->>DONE
$ ladder check g13.ld
fault G13 rung 2 line 11
```

A jump goes to a later rung. Corrected:

```console
$ cat g13_corrected.ld
VAR
  A AT %IX0 : BOOL;
  Y AT %QX0 : BOOL;
END_VAR

|     A
|----| |---------->>DONE

DONE:
|     A           Y
|----| |---------( )----
$ ladder check g13_corrected.ld
rungs 2 variables 2 instances 0
```
";

pub(crate) const G14: &str = "\
G14: a second jump in a rung

A rung has one jump or one RETURN.

```console
$ cat g14.ld
VAR
  A AT %IX0 : BOOL;
  B AT %IX1 : BOOL;
  Y AT %QX0 : BOOL;
END_VAR

|     A
|----| |---------->>DONE
|     B
|----| |--------<RETURN>

DONE:
|     A           Y
|----| |---------( )----
$ ladder check g14.ld
fault G14 rung 1 line 10
```

Corrected:

```console
$ cat g14_corrected.ld
VAR
  A AT %IX0 : BOOL;
  B AT %IX1 : BOOL;
  Y AT %QX0 : BOOL;
END_VAR

|     A
|----| |---------->>DONE

|     B
|----| |--------<RETURN>

DONE:
|     A           Y
|----| |---------( )----
$ ladder check g14_corrected.ld
rungs 3 variables 3 instances 0
```
";

pub(crate) const G15: &str = "\
G15: too many rungs

There are at most 100. The line is the first one of rung 101.

```console
$ { echo VAR; echo END_VAR; seq 101 | sed 's/.*/|\\n/'; } > g15.ld
$ ladder check g15.ld
fault G15 rung 101 line 203
```

Corrected:

```console
$ { echo VAR; echo END_VAR; seq 100 | sed 's/.*/|\\n/'; } > g15_corrected.ld
$ ladder check g15_corrected.ld
rungs 100 variables 0 instances 0
```
";
