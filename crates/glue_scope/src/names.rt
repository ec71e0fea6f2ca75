//! Names that are bound once.
ghost use Rattle.std.specs.Prelude.{◌≡◌, ◌<◌, ◌^◌, ◌+◌, ◌-◌, ℕ, false, IfOk, IfSome, OnOk, OnErr, IsTrue, not, Some};
ghost use Rattle.std.specs.FinMap as finite;
ghost use Rattle.std.specs.FinSet as set;
ghost use Rattle.std.specs.String.{string_bytes};
ghost use Rattle.glue_words.specs.Ident.{is_ident, to_ident};
ghost use Rattle.values.specs.TextSet.{TextSet};
ghost use Rattle.glue_scope.specs.Scope.{IsFirstFree, IsKept, IsLeastFree, KeepsTaken, key_set};
ghost use Rattle.glue_words.specs.Ident.{numbered};

use crate::number_map::NumberMap;
use glue_words::to_valid_ident;
use std::alloc::{AllocError, Global};
use std::marker::Model;

/// A scope in which each name is bound once.
///
/// Want of memory is its only error, and binds nothing.
pub trait Names: Sized + Drop {
    /// The names that are bound.
    ghost bound: { Self → TextSet };

    /// A scope that binds nothing.
    fn new(alloc: Global) -> Self
        ensures empty { bound result ≡ set.empty };

    /// Whether the name is bound.
    fn is_bound(&self, name: &str) -> bool
        ensures bound { result ≡ set.contains (bound self.now) name.now };

    /// Binds the name, and answers whether it was free.
    fn reserve(&mut self, name: &str) -> Result<bool, AllocError>
        ensures free { IfOk result (λ free. free ≡ not (set.contains (bound self.old) name.now)) }
        ensures binds { OnOk result (bound self.new ≡ set.insert (bound self.old) name.now) }
        ensures err { OnErr result (bound self.new ≡ bound self.old) };

    /// Binds a name that was free, and answers it: the name made an identifier, and where that is bound, it is followed by the
    /// least number from 2 up with which it is free.
    fn generate(&mut self, name: &str) -> Result<String, AllocError>
        ensures first { IfOk result (λ answer. IsFirstFree (bound self.old) (to_ident name.now) (string_bytes answer)) }
        ensures ident { IfOk result (λ answer. IsTrue (is_ident (string_bytes answer))) }
        ensures binds { IfOk result (λ answer. bound self.new ≡ set.insert (bound self.old) (string_bytes answer)) }
        ensures err { OnErr result (bound self.new ≡ bound self.old) };
}

/// A scope that remembers for each name the number to go on from, so that no number is tried twice for a name.
#[derive(Drop)]
pub struct IdentScope {
    names: NumberMap,
    alloc: Global,
}

impl Model for IdentScope {
    ghost use Rattle.std.specs.Prelude.{ℕ};
    ghost use Rattle.std.specs.Coded.{coded_ℕ, coded_list};
    ghost use Rattle.std.specs.FinMap as finite;
    ghost use Rattle.glue_scope.specs.Scope.{KeepsTaken, Numbers};

    ghost Value = { Numbers };

    ghost coded = { finite.code (coded_list coded_ℕ) coded_ℕ };

    ghost view = { λ s. s.names };

    ghost invariant = { λ s. KeepsTaken s.names };
}

impl IdentScope {
    fn has(&self, name: &str) -> bool
        ensures has { result ≡ set.contains (key_set self.now) name.now }
    {
        self.names.get(name).is_some()
    }

    /// The number that is kept for a name.
    fn kept(&self, name: &str) -> Option<u64>
        ensures kept { result ≡ finite.get self.now name.now }
        ensures taken { IfSome result (λ start. IsKept self.now name.now start) }
    {
        self.names.get(name)
    }

    /// The first free name with a number from `start` up, and its number.
    fn first_free(&self, name: &str, start: u64) -> Result<(String, u64), AllocError>
        ensures found { IfOk result (λ p. (string_bytes p.0 ≡ numbered name.now p.1) × (p.1 < 2 ^ 64 - 1) × IsLeastFree (key_set self.now) name.now start p.1) }
    {
        for number in start..u64::MAX {
            let candidate = format!(in self.alloc; "{name}{number}")?;
            if !self.has(candidate.as_str()) {
                return Ok((candidate, number));
            }
        }
        Err(AllocError)
    }

    /// Binds a name that is free.
    fn bind(&mut self, name: &str) -> Result<(), AllocError>
        requires { set.contains (key_set self.old) name.now ≡ false }
        ensures ok { OnOk result (self.new ≡ finite.insert self.old name.now 2) }
        ensures err { OnErr result (self.new ≡ self.old) }
    {
        let key = String::from_str(self.alloc, name)?;
        self.names.insert(key, 2)?;
        Ok(())
    }

    /// Binds the first free name with a number, and keeps the number after it.
    fn bind_numbered(&mut self, name: &str, start: u64) -> Result<String, AllocError>
        requires there { finite.get self.old name.now ≡ Some start }
        requires kept { IsKept self.old name.now start }
        ensures ok { IfOk result (λ answer. (n : ℕ) × (string_bytes answer ≡ numbered name.now n) × (n < 2 ^ 64) × IsLeastFree (key_set self.old) name.now 2 n × (self.new ≡ finite.insert (finite.insert self.old (string_bytes answer) 2) name.now (n + 1))) }
        ensures err { OnErr result (self.new ≡ self.old) }
    {
        let (answer, number) = self.first_free(name, start)?;
        self.bind(answer.as_str())?;
        self.names.set(name, number + 1);
        Ok(answer)
    }

    /// Binds the first free name of an identifier.
    fn bind_first(&mut self, ident: String) -> Result<String, AllocError>
        requires { IsTrue (is_ident (string_bytes ident)) }
        ensures first { IfOk result (λ answer. IsFirstFree (key_set self.old) (string_bytes ident) (string_bytes answer)) }
        ensures ident { IfOk result (λ answer. IsTrue (is_ident (string_bytes answer))) }
        ensures binds { IfOk result (λ answer. key_set self.new ≡ set.insert (key_set self.old) (string_bytes answer)) }
        ensures err { OnErr result (self.new ≡ self.old) }
    {
        match self.kept(ident.as_str()) {
            None => {
                self.bind(ident.as_str())?;
                Ok(ident)
            }
            Some(start) => self.bind_numbered(ident.as_str(), start),
        }
    }
}

impl Names for IdentScope {
    ghost bound = { λ s. key_set s };

    fn new(alloc: Global) -> IdentScope {
        IdentScope {
            names: NumberMap::new(alloc),
            alloc,
        }
    }

    fn is_bound(&self, name: &str) -> bool {
        self.has(name)
    }

    fn reserve(&mut self, name: &str) -> Result<bool, AllocError> {
        if self.has(name) {
            return Ok(false);
        }
        self.bind(name)?;
        Ok(true)
    }

    fn generate(&mut self, name: &str) -> Result<String, AllocError> {
        let ident = to_valid_ident(self.alloc, name)?;
        self.bind_first(ident)
    }
}
