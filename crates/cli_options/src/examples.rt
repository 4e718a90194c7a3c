//! The examples below the help of each subcommand, in lines of at most 80 characters.

pub(crate) const CHECK: &str = "Examples:
  ladder check --why plant.ld   the first fault, where it shows
  ladder check --warn plant.ld  also what looks like a mistake";

pub(crate) const CAUSES: &str = "Examples:
  ladder causes --grouped plant.ld Motor Start Stop      from the fresh state
  ladder causes --any --off --all-inputs plant.ld Motor  from any state";

pub(crate) const SHOW: &str = "Examples:
  ladder show --number 3 --coil Motor plant.ld Start Stop    why ON or OFF
  ladder show --html --stimulus day.csv plant.ld > day.html  a film";

pub(crate) const SIM: &str = "Examples:
  ladder sim plant.ld day.csv                            its outputs
  ladder sim --every 10 --save end.csv plant.ld day.csv  as a controller";

pub(crate) const USES: &str = "Examples:
  ladder uses plant.ld            where each name is drawn
  ladder uses --aliases plant.ld  with the machine's own names";

pub(crate) const NEVER: &str = "Examples:
  ladder never plant.ld          what can never come ON
  ladder never --pairs plant.ld  which two are never ON together";

pub(crate) const REACH: &str = "Examples:
  ladder reach plant.ld Motor > run.csv     a run that switches it on
  ladder reach --both Valve plant.ld Motor  both ON after one scan";

pub(crate) const DIFF: &str = "Examples:
  ladder diff old.ld new.ld                               is each name the same?
  ladder diff --grouped --all-inputs old.ld new.ld Motor  of one coil";

pub(crate) const DRAW: &str = "Examples:
  ladder draw pump.st > pump.ld                       from Structured Text
  ladder draw pump.st | ladder causes --any - Pump    what switches it on";

pub(crate) const EXPORT: &str = "Examples:
  ladder export --st plant.ld > plant.st              for a controller
  ladder export --st --bits --codesys --name Plant plant.ld > plant.st
  ladder export --xml --bits plant.ld > plant.xml     as a ladder diagram";

pub(crate) const IMPORT: &str = "Examples:
  ladder import plant.clp > plant.ld                  from ClassicLadder
  ladder import plant.xml > plant.ld                  from PLCopen XML
  ladder import --pou Plant plant.xml > plant.ld      one of its programs
  ladder import --hal plant.hal plant.clp > plant.ld  with its pins";

pub(crate) const EXPLAIN: &str = "Examples:
  ladder explain     all faults, a line each
  ladder explain G4  this one, with a correction";
