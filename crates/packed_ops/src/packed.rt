//! Operators that are kept as bytes.

ghost use Rattle.std.specs.Prelude.{◌≡◌, ◌∷◌, ◌++◌, [], IfOk, IfErr, OnOk, OnErr};
ghost use Rattle.std.specs.Option.{option_copied};
ghost use Rattle.packed_ops.specs.Packed.{IsNextOp, IsNextSpelled, IsNextOther};

use crate::packing::{pack_op, pack_short};
use crate::unpacking::read_packed;
use std::alloc::{AllocError, Global};
use std::fmt::{self, Debug, Formatter, Write};
use std::marker::Model;
use values::Seq;
use wasm_bytes::Reader;
use wasm_ops::Op;

/// Operators one after another. A contract sees their list; in memory they are bytes, at most three times as many as in a file.
#[derive(Drop)]
pub struct Ops {
    bytes: Vec<u8>,
}

impl Model for Ops {
    ghost use Rattle.std.specs.Prelude.{List};
    ghost use Rattle.wasm_ops.specs.declared.ops.Op.{Op};
    ghost use Rattle.packed_ops.specs.Packed.{ops_of, IsPacked};

    ghost Value = { List Op };

    ghost view = { λ ops. ops_of (record { place = 0; bytes = ops.bytes.items }) };

    ghost invariant = { λ ops. IsPacked (record { place = 0; bytes = ops.bytes.items }) };
}

impl Ops {
    /// No operators.
    #[tactic(auto, using(crate::proofs::PackedAgain::packed_none))]
    pub fn new(alloc: Global) -> Ops
        ensures { result ≡ [] }
    {
        Ops {
            bytes: Vec::new(alloc),
        }
    }

    /// Puts an operator behind the others. It may be packed into `scratch` first, whose old content is dropped then. Want of memory leaves these
    /// operators as they are; more than 4,294,967,295 labels, types or clauses in one operator come to want of memory.
    #[tactic(auto, using(crate::proofs::PackedAgain::packed_more))]
    pub fn push(&mut self, scratch: &mut Vec<u8>, op: &Op) -> Result<(), AllocError>
        ensures ok { OnOk result (self.new ≡ self.old ++ op.now ∷ []) }
        ensures err { OnErr result (self.new ≡ self.old) }
    {
        if pack_short(&mut self.bytes, op)? {
            return Ok(());
        }
        scratch.clear();
        pack_op(scratch, op)?;
        self.bytes.extend_from_slice(scratch)?;
        Ok(())
    }

    /// Gives back the memory that no operator needs.
    pub fn shrink_to_fit(&mut self)
        ensures { self.new ≡ self.old }
    {
        self.bytes.shrink_to_fit();
    }

    /// These operators, packed. The only error is want of memory; more than 4,294,967,295 labels, types or clauses in one operator
    /// come to it.
    pub fn pack(alloc: Global, list: &[Op]) -> Result<Ops, AllocError>
        ensures { IfOk result (λ ops. ops ≡ list.now) }
    {
        let mut scratch = Vec::new(alloc);
        let mut ops = Ops::new(alloc);
        for op in list {
            ops.push(&mut scratch, op)?;
        }
        Ok(ops)
    }

    /// The list of the operators. The only error is want of memory.
    pub fn unpack(&self, alloc: Global) -> Result<Seq<Op>, AllocError>
        ensures { IfOk result (λ list. list ≡ self.now) }
    {
        let mut list = Seq::new(alloc);
        let mut walk = self.walk();
        while let Some(op) = walk.next()? {
            list.push(op)?;
        }
        Ok(list)
    }

    /// The operators, from the first on.
    pub fn walk(&self) -> Walk<'_>
        ensures { result ≡ self.now }
    {
        Walk {
            bytes: &self.bytes,
            alloc: *self.bytes.allocator(),
        }
    }
}

/// The list of the operators. Want of memory is an error of the printing, behind what was printed.
impl Debug for Ops {
    fn fmt<W: Write>(&self, f: &mut Formatter<W>) -> fmt::Result {
        let mut walk = self.walk();
        let mut list = f.debug_list();
        while let Some(op) = walk.next().map_err(|_| fmt::Error)? {
            list.entry(&op);
        }
        list.finish()
    }
}

/// The operators that are still to come. A contract sees their list.
#[derive(Drop)]
pub struct Walk<'a> {
    bytes: &'a [u8],
    alloc: Global,
}

impl<'a> Model for Walk<'a> {
    ghost use Rattle.std.specs.Prelude.{List};
    ghost use Rattle.wasm_ops.specs.declared.ops.Op.{Op};
    ghost use Rattle.packed_ops.specs.Packed.{ops_of, IsPacked};

    ghost Value = { List Op };

    ghost view = { λ walk. ops_of (record { place = 0; bytes = walk.bytes.now }) };

    ghost invariant = { λ walk. IsPacked (record { place = 0; bytes = walk.bytes.now }) };
}

impl<'a> Walk<'a> {
    /// The next operator, none behind the last. A list inside it takes memory: want of it is the only error, and then no operators are left.
    #[tactic(auto, using(crate::proofs::PackedAgain::packed_empty, crate::proofs::PackedAgain::packed_none, crate::proofs::PackedAgain::walked))]
    pub fn next(&mut self) -> Result<Option<Op>, AllocError>
        ensures ok { IfOk result (λ found. IsNextOp found self.old self.new) }
        ensures err { IfErr result (λ e. self.new ≡ []) }
    {
        if self.bytes.is_empty() {
            return Ok(None);
        }
        let mut reader = Reader::new(self.bytes);
        match read_packed(&mut reader, self.alloc) {
            Ok(op) => {
                self.bytes = reader.left();
                Ok(Some(op))
            }
            Err(_) => {
                self.bytes = &[];
                Err(AllocError)
            }
        }
    }

    /// The bytes of the next operator, where it is kept as it is written. Where it isn't, or there is none, the walk stays where it is.
    #[tactic(auto, using(crate::proofs::PackedAgain::spelled_walked))]
    pub fn next_spelled(&mut self) -> Option<&'a [u8]>
        ensures { IsNextSpelled (option_copied result) self.old self.new }
    {
        if self.bytes.len() < 2 {
            return None;
        }
        let (head, rest) = self.bytes.split_at(2);
        let len = head[1] as usize;
        if head[0] >= 12 || len > rest.len() {
            return None;
        }
        let (spelled, left) = rest.split_at(len);
        self.bytes = left;
        Some(spelled)
    }

    /// The next operator that isn't kept as it is written, none behind the last; those before it are passed over, none of which names an
    /// entry. A list inside it takes memory: want of it is the only error, and then no operators are left.
    pub fn next_other(&mut self) -> Result<Option<Op>, AllocError>
        ensures ok { IfOk result (λ found. IsNextOther found self.old self.new) }
        ensures err { IfErr result (λ e. self.new ≡ []) }
    {
        loop {
            match self.next_spelled() {
                Some(_) => {}
                None => return self.next(),
            }
        }
    }
}
