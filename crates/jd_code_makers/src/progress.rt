//! What a body's code has by now.

ghost use Rattle.std.specs.Prelude.{◌≡◌, ◌+◌, [], IfOk, List, map, OnOk};
ghost use Rattle.jd_bodies.specs.Variables as plain;
ghost use Rattle.jd_code_makers.specs.Held.{Holds, IsProgress, Works, names_of, number_at, parts, with_receiver};
ghost use Rattle.jd_code_makers.specs.Makers.{GivesName, GivesNames, GivesNumber};
ghost use Rattle.jd_syntax.specs.Names.{Name, decl_view, var_view};

use crate::names::{declare, following, local_id, next, set_number, shown, temporary_id, this_id};
use indexmap::IndexMap;
use jd_base::NoMemory;
use jd_bodies::ValueType;
use jd_lists::{discard, put};
use jd_syntax::{VarDecl, VarId};
use std::alloc::Global;

/// The variables, temporaries, loops and labels of a body by now. That memory ran out is remembered, so that what makes more of them need
/// not ask; then nothing is known of them, and what needs one of them fails.
#[derive(Drop)]
pub struct Progress {
    // How many parameters and locals have each name.
    pub(crate) names: IndexMap<Vec<u8>, u64>,
    // All variables in the order of their making.
    pub(crate) variables: Vec<VarDecl>,
    // How many temporaries, loops and labels there are.
    pub(crate) temporaries: u64,
    pub(crate) loops: u32,
    pub(crate) labels: u32,
    // Of each loop the parameters and locals where it begins.
    pub(crate) scopes: Vec<Vec<VarId>>,
    // Whether memory ran out.
    pub(crate) has_failed: bool,
}

impl Progress {
    /// Nothing yet.
    pub fn new(alloc: Global) -> Progress
        ensures { Holds result (record { names = []; variables = []; temporaries = 0; loops = 0; labels = 0; scopes = [] }) }
    {
        Progress {
            names: IndexMap::new(alloc),
            variables: Vec::new(alloc),
            temporaries: 0,
            loops: 0,
            labels: 0,
            scopes: Vec::new(alloc),
            has_failed: false,
        }
    }

    // How many parameters and locals have the name.
    fn count(&self, name: &[u8]) -> u64
        ensures { result ≡ number_at self.now.names.entries name.now }
    {
        match self.names.get(name) {
            Some(number) => *number,
            None => 0,
        }
    }

    // The number of the last parameter or local of the name.
    fn number(&self, name: &[u8]) -> Result<u64, NoMemory>
        ensures { (q : plain.Progress) → Holds self.now q → IfOk result (λ n. n ≡ plain.count_of name.now q.names) }
    {
        if self.has_failed {
            return Err(NoMemory);
        }
        shown(name, self.count(name))
    }

    /// The last parameter or local of the name, which has this type.
    ///
    /// # Errors
    ///
    /// `NoMemory`.
    pub fn local(&self, alloc: Global, name: &[u8], t: ValueType) -> Result<VarId, NoMemory>
        ensures { (q : plain.Progress) → Holds self.now q → GivesName result (plain.local_name q.names name.now t) }
    {
        local_id(alloc, name, self.number(name), t)
    }

    // A new temporary, if memory suffices.
    fn add_temporary(&mut self, alloc: Global, t: ValueType) -> Result<VarId, NoMemory>
        ensures progress { OnOk result ((q : plain.Progress) → Holds self.old q → IsProgress (parts self.new) (plain.temporary t q).0) }
        ensures works { OnOk result (Works self.old) }
        ensures name { (q : plain.Progress) → Holds self.old q → GivesName result (plain.temporary t q).1 }
    {
        if self.has_failed {
            return Err(NoMemory);
        }
        let number = next(self.temporaries)?;
        declare(&mut self.variables, temporary_id(alloc, number, t), t)?;
        self.temporaries = number;
        temporary_id(alloc, number, t)
    }

    /// A new temporary of the type.
    ///
    /// # Errors
    ///
    /// `NoMemory`.
    pub fn temporary(&mut self, alloc: Global, t: ValueType) -> Result<VarId, NoMemory>
        ensures progress { (q : plain.Progress) → Holds self.old q → Holds self.new (plain.temporary t q).0 }
        ensures name { (q : plain.Progress) → Holds self.old q → GivesName result (plain.temporary t q).1 }
        ensures works { Works self.new → Works self.old }
    {
        let made = self.add_temporary(alloc, t);
        self.has_failed = made.is_err();
        made
    }

    // A new parameter or local, if memory suffices.
    fn add_local(&mut self, alloc: Global, name: &[u8], t: ValueType) -> Result<(), NoMemory>
        ensures progress { OnOk result ((q : plain.Progress) → Holds self.old q → IsProgress (parts self.new) (plain.with_local name.now t q)) }
        ensures works { OnOk result (Works self.old) }
    {
        if self.has_failed {
            return Err(NoMemory);
        }
        let count = next(self.count(name))?;
        set_number(alloc, &mut self.names, name, count)?;
        declare(
            &mut self.variables,
            local_id(alloc, name, shown(name, count), t),
            t,
        )
    }

    /// A new parameter or local of the type.
    pub fn enter(&mut self, alloc: Global, name: &[u8], t: ValueType)
        ensures progress { (q : plain.Progress) → Holds self.old q → Holds self.new (plain.with_local name.now t q) }
        ensures works { Works self.new → Works self.old }
    {
        let made = self.add_local(alloc, name, t);
        self.has_failed = made.is_err();
    }

    // A new label, if memory suffices.
    fn add_label(&mut self) -> Result<u32, NoMemory>
        ensures progress { OnOk result ((q : plain.Progress) → Holds self.old q → IsProgress (parts self.new) (plain.with_label q)) }
        ensures works { OnOk result (Works self.old) }
        ensures number { (q : plain.Progress) → Holds self.old q → GivesNumber result (plain.with_label q).labels }
    {
        if self.has_failed {
            return Err(NoMemory);
        }
        let number = following(self.labels)?;
        self.labels = number;
        Ok(number)
    }

    /// A new label.
    ///
    /// # Errors
    ///
    /// `NoMemory`.
    pub fn label(&mut self) -> Result<u32, NoMemory>
        ensures progress { (q : plain.Progress) → Holds self.old q → Holds self.new (plain.with_label q) }
        ensures number { (q : plain.Progress) → Holds self.old q → GivesNumber result (plain.with_label q).labels }
        ensures works { Works self.new → Works self.old }
    {
        let made = self.add_label();
        self.has_failed = made.is_err();
        made
    }

    // A new loop, if memory suffices.
    fn add_loop(&mut self, scope: Result<Vec<VarId>, NoMemory>) -> Result<u32, NoMemory>
        ensures progress { OnOk result ((q : plain.Progress) (ns : List Name) → Holds self.old q → GivesNames scope ns → IsProgress (parts self.new) (plain.with_loop ns q)) }
        ensures works { OnOk result (Works self.old) }
        ensures number { (q : plain.Progress) (ns : List Name) → Holds self.old q → GivesNumber result (plain.with_loop ns q).loops }
    {
        if self.has_failed {
            return Err(NoMemory);
        }
        let number = following(self.loops)?;
        put(&mut self.scopes, scope?)?;
        self.loops = number;
        Ok(number)
    }

    /// A new loop, which begins where these are in scope.
    ///
    /// # Errors
    ///
    /// `NoMemory`.
    pub fn enter_loop(&mut self, scope: Result<Vec<VarId>, NoMemory>) -> Result<u32, NoMemory>
        ensures progress { (q : plain.Progress) (ns : List Name) → Holds self.old q → GivesNames scope ns → Holds self.new (plain.with_loop ns q) }
        ensures number { (q : plain.Progress) (ns : List Name) → Holds self.old q → GivesNumber result (plain.with_loop ns q).loops }
        ensures works { Works self.new → Works self.old }
    {
        let made = self.add_loop(scope);
        self.has_failed = made.is_err();
        made
    }

    /// How many labels there are.
    ///
    /// # Errors
    ///
    /// `NoMemory` where memory ran out before.
    pub fn labels(&self) -> Result<u32, NoMemory>
        ensures { (q : plain.Progress) → Holds self.now q → GivesNumber result q.labels }
    {
        if self.has_failed {
            return Err(NoMemory);
        }
        Ok(self.labels)
    }

    // `this`, if memory suffices.
    fn add_receiver(&mut self, alloc: Global, class: u32) -> Result<(), NoMemory>
        ensures progress { OnOk result ((q : plain.Progress) → Holds self.old q → IsProgress (parts self.new) (with_receiver class q)) }
        ensures works { OnOk result (Works self.old) }
    {
        if self.has_failed {
            return Err(NoMemory);
        }
        declare(&mut self.variables, this_id(alloc), ValueType::Class(class))
    }

    /// `this`, an object of the class.
    pub fn receive(&mut self, alloc: Global, class: u32)
        ensures progress { (q : plain.Progress) → Holds self.old q → Holds self.new (with_receiver class q) }
        ensures works { Works self.new → Works self.old }
    {
        let made = self.add_receiver(alloc, class);
        self.has_failed = made.is_err();
    }

    /// All variables in the order of their making, and of each loop the parameters and locals where it begins.
    ///
    /// # Errors
    ///
    /// `NoMemory` where memory ran out before.
    pub fn finished(self) -> Result<(Vec<VarDecl>, Vec<Vec<VarId>>), NoMemory>
        ensures variables { (q : plain.Progress) → Holds self q → IfOk result (λ v. map decl_view v.0.items ≡ q.variables) }
        ensures scopes { (q : plain.Progress) → Holds self q → IfOk result (λ v. map names_of v.1.items ≡ q.scopes) }
    {
        if self.has_failed {
            discard(self);
            return Err(NoMemory);
        }
        let Progress {
            names,
            variables,
            scopes,
            ..
        } = self;
        discard(names);
        Ok((variables, scopes))
    }

    /// Whether memory ran out.
    pub fn ran_out(&self) -> bool
        ensures { result ≡ self.now.has_failed }
    {
        self.has_failed
    }

    /// Remembers that memory ran out.
    pub fn fail(&mut self)
        ensures progress { (q : plain.Progress) → Holds self.new q }
        ensures failed { Works self.new → ⊥ }
    {
        self.has_failed = true;
    }
}
