//! The pages of a part of docs/user/faults.md: Projects in PLCopen XML. `tests/pages.py --write` writes this file.

pub(crate) const N1: &str = "\
N1: this is no PLCopen project

The root of the document is `project`, with `types` and in it `pous`.

```console
$ cat lamp.xml
<?xml version=\"1.0\" encoding=\"utf-8\"?>
<project xmlns=\"http://www.plcopen.org/xml/tc6_0201\">
<types><dataTypes/><pous>
<pou name=\"lamp\" pouType=\"program\">
<interface><localVars>
<variable name=\"Button\" address=\"%IX0\"><type><BOOL/></type></variable>
<variable name=\"Lamp\" address=\"%QX0\"><type><BOOL/></type></variable>
</localVars></interface>
<body><LD>
<leftPowerRail localId=\"1\"/>
<contact localId=\"2\"><connectionPointIn><connection refLocalId=\"1\"/></connectionPointIn><variable>Button</variable></contact>
<coil localId=\"3\"><connectionPointIn><connection refLocalId=\"2\"/></connectionPointIn><variable>Lamp</variable></coil>
</LD></body>
</pou>
</pous></types>
</project>
$ sed 's/types>/kinds>/g' lamp.xml | ladder import -
fault N1
```

Corrected:

```console
$ ladder import lamp.xml
VAR
  Button AT %IX0 : BOOL;
  Lamp AT %QX0 : BOOL;
END_VAR

|  Button       Lamp
|----| |---------( )----
```
";

pub(crate) const N2: &str = "\
N2: this is no XML document that can be read

The line is that of the tag, the attribute, the reference or the comment that can't be read. A document is XML 1.0 in UTF-8, with names of ASCII letters and without a document type.

```console
$ sed 's/<pous>/<pous/' lamp.xml > broken.xml
$ ladder import --why broken.xml
fault N2 line 4
N2: this is no XML document that can be read: a tag that can't be read
```

Corrected:

```console
$ ladder import lamp.xml | head -n 1
VAR
```
";

pub(crate) const N3: &str = "\
N3: no program, or several

The project has one `pou` whose `pouType` is `program`, or with `--pou NAME` one whose `name` is this one, letter for letter. The word at the end of the line is `none` or `several`.

```console
$ sed 's/\"program\"/\"functionBlock\"/' lamp.xml | ladder import -
fault N3 none
$ ladder import --pou Lamp lamp.xml
fault N3 none
```

Corrected:

```console
$ ladder import --pou lamp lamp.xml | head -n 1
VAR
```
";

pub(crate) const N4: &str = "\
N4: the program isn't a ladder diagram

The program has one `body`, and this one has an `LD`. A body in Structured Text can be drawn by `ladder draw`.

```console
$ sed 's/LD>/FBD>/g' lamp.xml | ladder import -
fault N4
```

Corrected:

```console
$ ladder import lamp.xml | head -n 1
VAR
```
";

pub(crate) const N5: &str = "\
N5: what a program can't have

The line names a variable, or the element with this `localId`, and ends with a word for the reason; `--why` adds a sentence. The first such thing is told. `docs/user/import.md` says what can be imported. With `--open` a block that isn't known is no fault.

```console
$ sed 's/<coil /<coil negated=\"true\" storage=\"set\" /' lamp.xml | ladder import --why -
fault N5 element 3 modifier
N5: the element can't be negated or stored so
```

Corrected:

```console
$ ladder import lamp.xml | head -n 1
VAR
```
";

pub(crate) const N6: &str = "\
N6: a program that would be too large

A program has at most 100 rungs, 256 variables and 64 instances of blocks, and a diagram that is read has at most 4,000 elements. The word at the end of the line tells which of them are too many: `rungs`, `variables`, `blocks` or `elements`.
";

pub(crate) const N7: &str = "\
N7: the drawing isn't the diagram

What was drawn is read again, and what it does is compared with the diagram; where that isn't found to be one it isn't written. No project is known that has this fault: please report one.
";
