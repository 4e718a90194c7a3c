//! The pages of a part of docs/user/faults.md: Words. `tests/pages.py --write` writes this file.

pub(crate) const USAGE: &str = "\
usage: the arguments are not those of a request

The status is 2. A subcommand, a file, a coil or a name is missing, an option is unknown, a number isn't one, or options don't go together. On a terminal, and with `--why`, the line is followed by what is wrong. These rules hold beside those of `ladder help SUBCOMMAND`:


`ladder causes`:

| | Wants | Excludes |
|---|---|---|
| `causes FILE` | `COIL` or `--all-coils` |  |
| `--any` |  | `--at`, `--after`, `--upto`, `--progress`, `--scans`, `--for`, `--every`, `--relevant`, `--terms`, `--st`, `--order auto` |
| `--off` | `--any` |  |
| `--must` | `--any` |  |
| `--reachable` | `--any` |  |
| `--looks` | `--any` |  |
| `--runs` | `--any` | `--off`, `--must`, `--grouped` |
| `--states` | `--runs` |  |
| `--state` with `--any` | `--runs` |  |
| `--relevant` |  | `--scans`, `--for`, `--every`, `--upto`, `--progress`, `--all-inputs`, `INPUT` |
| `--relevant` with `--all-coils` |  | `INPUT` |
| `--all-inputs` with `--all-coils` |  | `INPUT` |
| `--all-inputs` |  | `INPUT` |
| `--order` | `--order auto` or `--order given` |  |
| `--grouped` |  | `--after`, `--upto`, `--progress` |
| `--terms` | `--grouped` | `--st` |
| `--st` | `--grouped` | `--limit`, `--aliases` |
| `--order auto` | `--grouped` |  |
| `--scans` |  | `--for`, `--after`, `--upto`, `--progress`, `--terms`, `--st`, `--order auto` |
| `--every` | `--scans` or `--for` |  |
| `--for` |  | `--after`, `--upto`, `--progress`, `--terms`, `--st`, `--order auto` |

`ladder diff`:

| | Wants | Excludes |
|---|---|---|
| `--looks` |  | `COIL` |
| `--reachable` |  | `COIL` |
| `--runs` |  | `COIL`, `--looks`, `--reachable` |
| `--states` | `--runs` | `COIL` |
| `--save` |  | `COIL` |
| `--state` | `COIL` |  |
| `--new-state` | `COIL` |  |
| `--at` | `COIL` |  |
| `--after` | `COIL` |  |
| `--upto` | `COIL` |  |
| `--limit` | `COIL` |  |
| `--progress` | `COIL` |  |
| `--scans` | `COIL` | `--for`, `--after`, `--upto`, `--progress`, `--terms`, `--st`, `--order auto` |
| `--for` | `COIL` | `--after`, `--upto`, `--progress`, `--terms`, `--st`, `--order auto` |
| `--every` | `COIL`, and `--scans` or `--for` |  |
| `--grouped` | `COIL` | `--scans`, `--for`, `--every`, `--after`, `--upto`, `--progress` |
| `--terms` | `COIL`, and `--grouped` | `--st` |
| `--st` | `COIL`, and `--grouped` | `--limit`, `--aliases` |
| `--order auto` | `COIL`, and `--grouped` |  |
| `--all-inputs` | `COIL` | `INPUT` |
| `--order` | `--order auto` or `--order given` |  |

`ladder show`:

| | Wants | Excludes |
|---|---|---|
| `--stimulus` |  | `--at`, `--number`, `--all-inputs`, `INPUT`, `--assume`, `--assumed` |
| `--html` |  | `--assume`, `--assumed` |
| `--all-inputs` |  | `INPUT` |

`ladder sim`:

| | Wants | Excludes |
|---|---|---|
| `--vcd` |  | `--save`, `--watch`, `--watch-all`, `--changes`, `--expect`, `--progress` |
| `--watch-all` |  | `--watch` |

`ladder never`:

| | Wants | Excludes |
|---|---|---|
| `--off` |  | `--pairs` |

`ladder reach`:

| | Wants | Excludes |
|---|---|---|
| `--scans` | `--every` |  |
| `--gap` |  | `--every` |

`ladder export`:

| | Wants | Excludes |
|---|---|---|
| `export FILE` | `--st` or `--xml` |  |
| `--st` |  | `--xml` |

`ladder import`:

| | Wants | Excludes |
|---|---|---|
| `--control` | `--control on` |  |


Numbers have their ranges: `--every` of `sim` and `reach`, `--scans` of `reach`, `--looks` and `--states` are at least 1, and the last two at most 4294967295. `explain` has a page for each code alone. With `--all-coils` no COIL is named: what comes after FILE is an INPUT. `--save` of `sim` may replace the state that is read, but not the program, the stimulus, the trace of `--expect`, or the file that standard output goes to; `--all-coils` doesn't replace the program or the state, and `--save` of `diff`, which is a folder, no program.

```console
$ ladder causes motor.ld
fault usage
$ echo $?
2
$ ladder check --state state.csv motor.ld
fault usage
$ ladder causes --why --grouped --after 1 motor.ld Motor
fault usage
usage: --grouped excludes --after
$ ladder causes --st motor.ld Motor
fault usage
$ ladder causes --grouped --st --limit 1 motor.ld Motor
fault usage
$ ladder causes --scans 10 --grouped --terms motor.ld Motor
fault usage
$ ladder causes --any --grouped --terms motor.ld Motor
fault usage
$ ladder causes --why --must motor.ld Motor
fault usage
usage: --must wants --any
$ ladder causes --any --runs --must motor.ld Motor
fault usage
$ ladder causes --any --states 1000 motor.ld Motor
fault usage
$ ladder reach --scans 3 motor.ld Motor
fault usage
$ ladder reach --every 10 --gap 5 motor.ld Motor
fault usage
$ ladder sim --save motor.ld motor.ld stimulus.csv
fault usage
$ ladder sim --why --every 0 motor.ld stimulus.csv
fault usage
error: invalid value '0' for '--every <MS>': 0 is not in 1..18446744073709551615

For more information, try '--help'.
$ ladder causes --why --limit ten motor.ld Motor
fault usage
error: invalid value 'ten' for '--limit <N>': invalid digit found in string

For more information, try '--help'.
```

Corrected:

```console
$ ladder causes motor.ld Motor
number
rows 0 looks 1
$ ladder causes --grouped motor.ld Motor
causes
rows 0 causes 0
$ ladder causes --grouped --st motor.ld Motor
Motor := FALSE;
rows 0 causes 0
$ ladder check motor.ld
rungs 1 variables 4 instances 0
```
";
