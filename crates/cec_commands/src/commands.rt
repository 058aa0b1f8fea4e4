// The commands. `plain` has those that read no file, and `make` those that make a text. `run` runs a source via a text
// of it, `tri` via its graph. `exec` runs a text, and `load` a generated source. Below them is `texts`, which does what
// depends on the language of a text.

pub(crate) mod exec;
pub(crate) mod load;
pub(crate) mod make;
pub(crate) mod plain;
pub(crate) mod run;
pub(crate) mod texts;
pub(crate) mod tri;
