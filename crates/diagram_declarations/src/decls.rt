//! The declarations of a text: variables and instances, and what one more may be.

ghost use Rattle.std.specs.Prelude.{◌≡◌, ◌≤◌, ◌<◌, ◌||◌, length, OnOk, IfErr, IfSome, IfNone, position, count_by};
ghost use Rattle.std.specs.List.{list_any, prefix_len};
ghost use Rattle.diagram_declarations.specs.Name.{same_letters};
ghost use Rattle.diagram_declarations.specs.Decls.{is_input, names_of, addresses_of, same_address, find, instance_name, output_suffix, symbol_name, var_name, AreInRange};
ghost use Rattle.diagram_declarations.specs.Rules.{IsRefused};
ghost use Rattle.diagram_declarations.specs.TakeTitles.{SetsVar, SetsInstance, is_called};
ghost use Rattle.diagram_declarations.specs.ReadDecls.{is_taken, nothing, with_var, with_instance, with_decl, IfBroken, PresetFits};

use crate::fault::{Fault, Stopped, VarRule};
use crate::kind::{BlockKind, Output};
use crate::letters::same_letters;
use crate::limits::{MOST_INSTANCES, MOST_VARS};
use crate::name::Name;
use crate::title::Title;
use std::alloc::{AllocError, Global};
use std::marker::Model;

/// What a variable is for.
#[derive(Clone, Copy, Debug, PartialEq, Eq)]
pub enum VarKind {
    /// Declared `AT %I..`: a scan takes its value from outside.
    Input,
    /// Declared `AT %Q..`: its value is part of the output image.
    Output,
    /// Declared `AT %M..` or without an address.
    Memory,
}

/// A direct address such as `%IX1.0`: the letter in capitals, one of `I`, `Q` and `M`, and its numbers.
#[derive(Clone, Copy, Debug, PartialEq, Eq)]
pub struct Address {
    pub letter: char,
    pub first: u32,
    pub second: Option<u32>,
}

/// A variable of type `BOOL`.
#[derive(Clone, Copy)]
pub struct Var {
    pub name: Name,
    /// What lists and traces call it: its name, or its alias where that is asked for.
    pub title: Title,
    pub kind: VarKind,
    pub address: Option<Address>,
    /// The value in a fresh state.
    pub initial: bool,
}

impl Var {
    /// Whether the variable is an input.
    pub fn is_input(&self) -> bool
        ensures { result ≡ is_input self.now }
    {
        self.kind == VarKind::Input
    }
}

/// An instance of a function block.
#[derive(Clone, Copy)]
pub struct Instance {
    pub name: Name,
    /// What lists and traces call it: its name, or its alias where that is asked for.
    pub title: Title,
    pub kind: BlockKind,
    /// PT of a timer in milliseconds, PV of a counter, or 0 for a bistable.
    pub preset: u32,
}

/// What follows a name in its declaration.
#[derive(Clone, Copy)]
pub(crate) enum Body {
    Var {
        kind: VarKind,
        address: Option<Address>,
        initial: bool,
    },
    Instance {
        kind: BlockKind,
        preset: u32,
    },
}

/// What a name stands for, by its number in order of declaration, counted from 0.
#[derive(Clone, Copy, Debug, PartialEq, Eq)]
pub enum Symbol {
    Var(usize),
    Instance(usize),
}

/// The declarations of a text: variables and instances, each in order of declaration.
///
/// No two names are the same whatever their letter case, and no two addresses. There are at most
/// 256 variables and 64 instances. The name of an instance has at most 9 characters, that of a
/// bistable at most 8, and the preset of a counter is at most 32767.
#[derive(Drop)]
pub struct Decls {
    vars: Vec<Var>,
    instances: Vec<Instance>,
    /// How many inputs are declared before the first variable that is none.
    leading: usize,
}

impl Model for Decls {
    ghost use Rattle.std.specs.Prelude.{◌≡◌};
    ghost use Rattle.std.specs.List.{prefix_len};
    ghost use Rattle.diagram_declarations.specs.Decls.{Declared, AreInRange, is_input};

    ghost Value = { Declared };

    ghost view = { λ d. record { vars = d.vars.items; instances = d.instances.items } };

    ghost invariant = { λ d. AreInRange (record { vars = d.vars.items; instances = d.instances.items })
        × (d.leading ≡ prefix_len is_input d.vars.items) };
}

/// The number of the first variable with this name, whatever the letter case.
fn var_at(vars: &[Var], name: &Name) -> Option<usize>
    ensures { result ≡ position (λ v. same_letters name.now v.name) vars.now }
{
    vars.iter().position(|v| name.same(&v.name))
}

/// The number of the first instance with this name, whatever the letter case.
fn instance_at(instances: &[Instance], name: &Name) -> Option<usize>
    ensures { result ≡ position (λ i. same_letters name.now i.name) instances.now }
{
    instances.iter().position(|i| name.same(&i.name))
}

/// Whether a variable already has this name, whatever the letter case.
fn is_var_named(vars: &[Var], name: &Name) -> bool
    ensures { result ≡ list_any (λ v. same_letters name.now v.name) vars.now }
{
    vars.iter().any(|v| name.same(&v.name))
}

/// Whether an instance already has this name, whatever the letter case.
fn is_instance_named(instances: &[Instance], name: &Name) -> bool
    ensures { result ≡ list_any (λ i. same_letters name.now i.name) instances.now }
{
    instances.iter().any(|i| name.same(&i.name))
}

/// Whether a variable already has the address.
fn is_used(vars: &[Var], address: Address) -> bool
    ensures { result ≡ list_any (same_address address) (addresses_of vars.now) }
{
    vars.iter()
        .filter_map(|v| v.address)
        .any(|other| address == other)
}

/// Whether an earlier variable has this address. A declaration without an address takes none.
fn is_taken(vars: &[Var], address: Option<Address>) -> bool
    ensures { result ≡ is_taken vars.now address }
{
    match address {
        Some(address) => is_used(vars, address),
        None => false,
    }
}

/// The title of a declaration without an alias, which is its name.
#[tactic(auto, using(crate::proofs::TitleLaws::name_is_title))]
fn title_of(name: &Name) -> Title
    ensures { result ≡ name.now }
{
    Title::spelled(name.bytes())
}

/// Whether a word spells the name or the title of a declaration, whatever the letter case.
fn is_either(word: &[u8], name: &Name, title: &Title) -> bool
    ensures { result ≡ (same_letters word.now name.now || same_letters word.now title.now) }
{
    same_letters(word, name.bytes()) || same_letters(word, title.bytes())
}

/// Whether the name or the title of a variable is this word.
fn is_var_called(vars: &[Var], word: &[u8]) -> bool
    ensures { result ≡ list_any (λ v. same_letters word.now v.name || same_letters word.now v.title) vars.now }
{
    vars.iter().any(|v| is_either(word, &v.name, &v.title))
}

/// Whether the name or the title of an instance is this word.
fn is_instance_called(instances: &[Instance], word: &[u8]) -> bool
    ensures { result ≡ list_any (λ i. same_letters word.now i.name || same_letters word.now i.title) instances.now }
{
    instances.iter().any(|i| is_either(word, &i.name, &i.title))
}

impl Decls {
    /// Declarations of which none is read yet.
    pub(crate) fn new(alloc: Global) -> Decls
        ensures { result ≡ nothing }
    {
        Decls {
            vars: Vec::new(alloc),
            instances: Vec::new(alloc),
            leading: 0,
        }
    }

    /// Whether a variable or an instance has this name.
    #[tactic(auto, using(crate::proofs::Keeping::names_any))]
    fn is_declared(&self, name: &Name) -> bool
        ensures { result ≡ list_any (same_letters name.now) (names_of self.now) }
    {
        is_var_named(&self.vars, name) || is_instance_named(&self.instances, name)
    }

    /// The rule that one more declaration would break: names and addresses are declared once, and their number is limited.
    fn refusal(&self, name: &Name, body: Body) -> Option<VarRule>
        ensures some { IfSome result (λ rule. IsRefused rule self.now name.now body) }
        ensures none { IfNone result (PresetFits body → AreInRange (with_decl self.now name.now body)) }
    {
        match body {
            Body::Var { address, .. } => {
                if self.is_declared(name) {
                    Some(VarRule::Duplicate)
                } else if is_taken(&self.vars, address) {
                    Some(VarRule::DuplicateAddress)
                } else if self.vars.len() >= MOST_VARS {
                    Some(VarRule::TooMany)
                } else {
                    None
                }
            }
            Body::Instance { kind, .. } => {
                if name.bytes().len() > kind.traits().longest_name {
                    Some(VarRule::BadName)
                } else if self.is_declared(name) {
                    Some(VarRule::Duplicate)
                } else if self.instances.len() >= MOST_INSTANCES {
                    Some(VarRule::TooMany)
                } else {
                    None
                }
            }
        }
    }

    /// Adds a variable as the last one. An input that only inputs precede counts as a leading one, which a scan gives its value by
    /// one copy.
    fn push_var(&mut self, var: Var) -> Result<(), AllocError>
        requires { AreInRange (with_var self.old var) }
        ensures { OnOk result (self.new ≡ with_var self.old var) }
    {
        let mut leading = self.leading;
        if leading == self.vars.len() && var.is_input() {
            leading += 1;
        }
        self.vars.push(var)?;
        self.leading = leading;
        Ok(())
    }

    /// Adds an instance of a function block as the last one.
    fn push_instance(&mut self, instance: Instance) -> Result<(), AllocError>
        requires { AreInRange (with_instance self.old instance) }
        ensures { OnOk result (self.new ≡ with_instance self.old instance) }
    {
        self.instances.push(instance)?;
        Ok(())
    }

    /// Adds a declaration as it was read; its title is its name until aliases are taken.
    fn push(&mut self, name: Name, body: Body) -> Result<(), AllocError>
        requires { AreInRange (with_decl self.old name body) }
        ensures { OnOk result (self.new ≡ with_decl self.old name body) }
    {
        match body {
            Body::Var {
                kind,
                address,
                initial,
            } => self.push_var(Var {
                name,
                title: title_of(&name),
                kind,
                address,
                initial,
            }),
            Body::Instance { kind, preset } => self.push_instance(Instance {
                name,
                title: title_of(&name),
                kind,
                preset,
            }),
        }
    }

    /// Adds a declaration that was read, unless it breaks a rule; `left` bytes of the text are after its name, by which a fault
    /// finds its line.
    pub(crate) fn add(&mut self, name: Name, body: Body, left: usize) -> Result<(), Stopped>
        requires { PresetFits body }
        ensures more { OnOk result (self.new ≡ with_decl self.old name body) }
        ensures refused { IfErr result (λ e. IfBroken e (λ f. IsRefused f.rule self.old name body × (f.left ≡ left))) }
    {
        match self.refusal(&name, body) {
            Some(rule) => Err(Stopped::Broken(Fault { rule, left })),
            None => Ok(self.push(name, body)?),
        }
    }

    /// The variables, in order of declaration.
    pub fn vars(&self) -> &[Var]
        ensures value { result.now ≡ self.now.vars }
        ensures kept { AreInRange self.now }
    {
        self.vars.as_slice()
    }

    /// The instances, in order of declaration.
    pub fn instances(&self) -> &[Instance]
        ensures value { result.now ≡ self.now.instances }
        ensures kept { AreInRange self.now }
    {
        self.instances.as_slice()
    }

    /// How many of the variables are inputs.
    pub fn inputs(&self) -> usize
        ensures { result ≡ count_by is_input self.now.vars }
    {
        self.vars.iter().filter(|var| var.is_input()).count()
    }

    /// How many inputs are declared before the first variable that is none.
    pub fn leading_inputs(&self) -> usize
        ensures { result ≡ prefix_len is_input self.now.vars }
    {
        self.leading
    }

    /// What the name stands for, where it is declared: letter case makes no difference.
    pub fn find(&self, name: &Name) -> Option<Symbol>
        ensures { result ≡ find self.now name.now }
    {
        match var_at(&self.vars, name) {
            Some(number) => Some(Symbol::Var(number)),
            None => instance_at(&self.instances, name).map(Symbol::Instance),
        }
    }

    /// The title of a variable, by its number; nothing where there is none.
    pub fn var_name(&self, var: usize) -> &[u8]
        ensures { result.now ≡ var_name self.now var }
    {
        match self.vars.get(var) {
            Some(var) => var.title.bytes(),
            None => b"",
        }
    }

    /// The title of an instance, by its number; nothing where there is none.
    pub fn instance_name(&self, inst: usize) -> &[u8]
        ensures { result.now ≡ instance_name self.now inst }
    {
        match self.instances.get(inst) {
            Some(instance) => instance.title.bytes(),
            None => b"",
        }
    }

    /// The title of a variable or an instance, as lists and traces print it.
    pub fn symbol_name(&self, symbol: Symbol) -> &[u8]
        ensures { result.now ≡ symbol_name self.now symbol }
    {
        match symbol {
            Symbol::Var(var) => self.var_name(var),
            Symbol::Instance(inst) => self.instance_name(inst),
        }
    }

    /// What is written after the title of an instance, for its output: `.Q` or `.Q1`.
    pub fn output_suffix(&self, inst: usize) -> &'static [u8]
        ensures { result.now ≡ output_suffix self.now inst }
    {
        match self.instances.get(inst) {
            Some(instance) => match instance.kind.traits().output {
                Output::Q => b".Q",
                Output::Q1 => b".Q1",
            },
            None => b"",
        }
    }

    /// Whether a declaration has the name or the title, whatever the case of its letters.
    pub(crate) fn is_called(&self, word: &[u8]) -> bool
        ensures { result ≡ is_called word.now self.now }
    {
        is_var_called(&self.vars, word) || is_instance_called(&self.instances, word)
    }

    /// Gives a variable the title by which lists and traces call it.
    pub(crate) fn set_var_title(&mut self, number: usize, title: Title)
        requires { number < length self.old.vars }
        ensures { SetsVar number title self.old self.new }
    {
        self.vars[number].title = title;
    }

    /// Gives an instance the title by which lists and traces call it.
    pub(crate) fn set_instance_title(&mut self, number: usize, title: Title)
        requires { number < length self.old.instances }
        ensures { SetsInstance number title self.old self.new }
    {
        self.instances[number].title = title;
    }
}
