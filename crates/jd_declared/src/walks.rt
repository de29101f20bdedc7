//! What a class sees, by walking up from it.

ghost use Rattle.std.specs.Prelude.{◌≡◌, ◌+◌, ◌<◌, is_some};
ghost use Rattle.jd_ancestry.specs.Walks.{parent_of};
ghost use Rattle.jd_declared.specs.Told.{own_value};
ghost use Rattle.jd_declared.specs.Walks.{it_is, meeting as meeting_in, nearest, one_up, steps as steps_in};

use crate::declared::Declared;
use jd_bodies::Variable;

impl Declared {
    // How many classes stand at the class and above it.
    fn steps(&self, class: u32) -> usize
        ensures steps { result ≡ steps_in self.now.depths.items class }
        ensures few { result < 4294967297 }
    {
        match self.depths.get(class as usize) {
            Some(depth) => *depth as usize + 1,
            None => 1,
        }
    }

    /// What the class extends.
    pub(crate) fn extended(&self, class: u32) -> Option<u32>
        ensures { result ≡ parent_of self.now.parents.items class }
    {
        match self.parents.get(class as usize) {
            Some(parent) => *parent,
            None => None,
        }
    }

    // What the class declares itself by the name.
    fn own_variable(&self, class: u32, name: &[u8]) -> Option<Variable>
        ensures { result ≡ own_value self.now.variables.items name.now class }
    {
        match self.variables.get(class as usize) {
            Some(own) => own.value(name),
            None => None,
        }
    }

    pub(crate) fn own_method(&self, class: u32, name: &[u8]) -> Option<u32>
        ensures { result ≡ own_value self.now.methods.items name.now class }
    {
        match self.methods.get(class as usize) {
            Some(own) => own.value(name),
            None => None,
        }
    }

    fn own_constructor(&self, class: u32) -> Option<u32>
        ensures { result ≡ parent_of self.now.constructors.items class }
    {
        match self.constructors.get(class as usize) {
            Some(own) => *own,
            None => None,
        }
    }

    /// The variable that the class sees by the name.
    pub(crate) fn nearest_variable(&self, class: u32, name: &[u8]) -> Option<Variable>
        ensures { result ≡ nearest self.now.parents.items (own_value self.now.variables.items name.now) (steps_in self.now.depths.items class) class }
    {
        let mut at = class;
        let mut left = self.steps(class);
        while left > 0 {
            left -= 1;
            if let Some(variable) = self.own_variable(at, name) {
                return Some(variable);
            }
            let Some(above) = self.extended(at) else {
                return None;
            };
            at = above;
        }
        None
    }

    /// The method that the class sees by the name.
    pub(crate) fn nearest_method(&self, class: u32, name: &[u8]) -> Option<u32>
        ensures { result ≡ nearest self.now.parents.items (own_value self.now.methods.items name.now) (steps_in self.now.depths.items class) class }
    {
        let mut at = class;
        let mut left = self.steps(class);
        while left > 0 {
            left -= 1;
            if let Some(method) = self.own_method(at, name) {
                return Some(method);
            }
            let Some(above) = self.extended(at) else {
                return None;
            };
            at = above;
        }
        None
    }

    /// The constructor that runs for the class.
    pub(crate) fn nearest_constructor(&self, class: u32) -> Option<u32>
        ensures { result ≡ nearest self.now.parents.items (parent_of self.now.constructors.items) (steps_in self.now.depths.items class) class }
    {
        let mut at = class;
        let mut left = self.steps(class);
        while left > 0 {
            left -= 1;
            if let Some(constructor) = self.own_constructor(at) {
                return Some(constructor);
            }
            let Some(above) = self.extended(at) else {
                return None;
            };
            at = above;
        }
        None
    }

    /// Whether the one class is the other or extends it, over as many classes as may be.
    pub(crate) fn stands_below(&self, below: u32, above: u32) -> bool
        ensures { result ≡ is_some (nearest self.now.parents.items (it_is above) (steps_in self.now.depths.items below) below) }
    {
        let mut at = below;
        let mut left = self.steps(below);
        while left > 0 {
            left -= 1;
            if at == above {
                return true;
            }
            let Some(next) = self.extended(at) else {
                return false;
            };
            at = next;
        }
        false
    }

    // The lower of two classes goes a step up.
    fn one_up(&self, a: u32, b: u32) -> Option<(u32, u32)>
        ensures { result ≡ one_up self.now.parents.items self.now.depths.items a b }
    {
        if self.steps(b) <= self.steps(a) {
            match self.extended(a) {
                Some(above) => Some((above, b)),
                None => None,
            }
        } else {
            match self.extended(b) {
                Some(above) => Some((a, above)),
                None => None,
            }
        }
    }

    /// The nearest class that is both or that both extend.
    pub(crate) fn meeting(&self, one: u32, other: u32) -> u32
        ensures { result ≡ meeting_in self.now.parents.items self.now.depths.items (steps_in self.now.depths.items one + steps_in self.now.depths.items other) one other }
    {
        let mut both = (one, other);
        let mut left = self.steps(one) + self.steps(other);
        while left > 0 {
            left -= 1;
            if both.0 == both.1 {
                return both.0;
            }
            let Some(next) = self.one_up(both.0, both.1) else {
                return 0;
            };
            both = next;
        }
        0
    }
}
