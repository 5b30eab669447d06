ghost use Rattle.std.specs.Prelude.{◌≡◌, ◌+◌, ◌≤◌, ℕ, slice_set, OnOk, IfOk};
ghost use Rattle.code_forms.specs.GuardValid.{operators_in};
ghost use Rattle.code_forms.specs.declared.guard.GuardLine.TheVariants.{SetCell, SetField, Test};
ghost use Rattle.std.specs.Prelude.{None, ◌++◌, ◌∷◌, [], ◌<◌, length, OnErr};
ghost use Rattle.std.specs.List.{slice_index_or};
ghost use Rattle.ssa_flatten.specs.Views.{renews, adds_copy, adds_guard, load_view, index_code, with_code};
ghost use Rattle.ssa_flatten.specs.Views.{Keeps, Does, HasRoom, adds_index};
ghost use Rattle.ssa_flatten.specs.Counting.{index_operators, unloaded};
ghost use Rattle.code_forms.specs.GuardMeaning.{index_at};
ghost use Rattle.ssa_flatten.specs.Flattening.{assigning, flat_done, touch_array};

use crate::expression::{copy_at, flat_expr, operand_at};
use crate::output::{Output, emit};
use code_forms::{ArrayShape, GuardExpr, Instr, Operand};
use sqlite_items::Items;
use std::alloc::{AllocError, Global};

/// The guards under which an array is touched so far, and the numbers of its later copies so far.
#[derive(Debug, Drop)]
pub(crate) struct Touches {
    pub touched: Items<Operand>,
    pub copies: Items<u32>,
}

/// The code so far, the latest operands, the guards' operands, and what is known of each array.
#[derive(Drop)]
pub(crate) struct Sofar {
    pub out: Output,
    pub fields: Vec<Operand>,
    pub copies: Vec<Option<Operand>>,
    pub guards: Vec<Operand>,
    pub arrays: Vec<Touches>,
}

// Writes an operand to a place. Past them all nothing is written.
fn put(operands: &mut [Operand], place: usize, operand: Operand)
    ensures { operands.new ≡ slice_set operands.old place operand }
{
    if place < operands.len() {
        operands[place] = operand;
    }
}

// The last instruction of an assignment.
fn assigning(guard: u32, on: Operand, value: Operand, old: Operand) -> Instr
    ensures { result ≡ assigning guard on value old }
{
    if guard == 0 {
        Instr::Move(value)
    } else {
        Instr::Pick(on, value, old)
    }
}

// Writes the operand of a loaded copy.
fn renew(copies: &mut [Option<Operand>], array: usize, operand: Operand)
    ensures { copies.new ≡ renews copies.old array operand }
{
    if array < copies.len() {
        if copies[array].is_some() {
            copies[array] = Some(operand);
        }
    }
}

// One more later copy of an array.
fn add_copy(arrays: &mut [Touches], array: usize, number: u32) -> Result<(), AllocError>
    requires { array < length arrays.old }
    ensures { OnOk result (arrays.new ≡ adds_copy arrays.old array number) }
{
    arrays[array].copies.push(number)
}

// One more guard under which an array is touched.
fn add_guard(arrays: &mut [Touches], array: usize, on: Operand) -> Result<(), AllocError>
    requires { array < length arrays.old }
    ensures { OnOk result (arrays.new ≡ adds_guard arrays.old array on) }
{
    arrays[array].touched.push(on)
}

impl Sofar {
    ghost use Rattle.ssa_flatten.specs.Flattening.{Sofar as Exact};
    ghost use Rattle.ssa_flatten.specs.Views.{held, view};

    /// An assignment to a field, whose arrays are loaded.
    pub(crate) fn set_field(
        &mut self,
        alloc: Global,
        header: u32,
        field: u32,
        guard: u32,
        value: &GuardExpr,
    ) -> Result<(), AllocError>
        requires { self.old.out.next + operators_in value.now ≤ 1999 }
        ensures line { OnOk result (Does self.old self.new
            (flat_done header (SetField field guard value.now))) }
        ensures next { OnOk result (self.new.out.next ≡ self.old.out.next
            + (operators_in value.now + 1)) }
    {
        let word = flat_expr(alloc, &self.fields, &self.copies, value, &mut self.out)?;
        let on = operand_at(&self.guards, guard as usize);
        let old = operand_at(&self.fields, field as usize);
        let slot = emit(&mut self.out, assigning(guard, on, word, old))?;
        put(&mut self.fields, field as usize, slot);
        Ok(())
    }

    /// An assignment to an array, whose arrays are touched.
    pub(crate) fn set_cell(
        &mut self,
        alloc: Global,
        header: u32,
        array: u32,
        guard: u32,
        value: &GuardExpr,
    ) -> Result<(), AllocError>
        requires room { self.old.out.next + operators_in value.now ≤ 1999 }
        requires behind { header ≤ self.old.out.next }
        requires there { array < length self.old.arrays.items }
        ensures line { OnOk result (Does self.old self.new
            (flat_done header (SetCell array guard value.now))) }
        ensures next { OnOk result (self.new.out.next ≡ self.old.out.next
            + (operators_in value.now + 1)) }
    {
        let word = flat_expr(alloc, &self.fields, &self.copies, value, &mut self.out)?;
        let on = operand_at(&self.guards, guard as usize);
        let old = copy_at(&self.copies, array as usize);
        let number = self.out.next - header;
        let slot = emit(&mut self.out, assigning(guard, on, word, old))?;
        renew(&mut self.copies, array as usize, slot);
        add_copy(&mut self.arrays, array as usize, number)?;
        Ok(())
    }

    /// A condition, whose arrays are touched.
    pub(crate) fn test(
        &mut self,
        alloc: Global,
        under: u32,
        cond: &GuardExpr,
    ) -> Result<(), AllocError>
        requires { self.old.out.next + operators_in cond.now ≤ 1998 }
        ensures line { OnOk result ((h a b : ℕ) →
            Does self.old self.new (flat_done h (Test cond.now under a b))) }
        ensures next { OnOk result (self.new.out.next ≡ self.old.out.next
            + (operators_in cond.now + 2)) }
    {
        let word = flat_expr(alloc, &self.fields, &self.copies, cond, &mut self.out)?;
        let on = operand_at(&self.guards, under as usize);
        let first = emit(&mut self.out, Instr::Yes(on, word))?;
        let second = emit(&mut self.out, Instr::No(on, word))?;
        self.guards.push(first)?;
        self.guards.push(second)?;
        Ok(())
    }

    /// Touches an array under a guard, and loads it before where it isn't loaded yet.
    pub(crate) fn touch(
        &mut self,
        alloc: Global,
        shapes: &[ArrayShape],
        array: u32,
        on: Operand,
    ) -> Result<(), AllocError>
        requires there { array < length shapes.now }
        requires copies { length self.old.copies.items ≡ length shapes.now }
        requires arrays { length self.old.arrays.items ≡ length shapes.now }
        requires room { HasRoom shapes.now self.old 0 }
        ensures line { OnOk result (Does self.old self.new (λ s.
            touch_array shapes.now on s array)) }
        ensures keeps { OnOk result (Keeps shapes.now self.old self.new) }
    {
        if let Some(_word) = self.copies[array as usize] {
            add_guard(&mut self.arrays, array as usize, on)?;
            return Ok(());
        }
        self.load(alloc, shapes, array)?;
        add_guard(&mut self.arrays, array as usize, on)?;
        Ok(())
    }

    // Loads an array: its index, its Index and its Load.
    fn load(&mut self, alloc: Global, shapes: &[ArrayShape], array: u32) -> Result<(), AllocError>
        requires there { array < length shapes.now }
        requires copies { length self.old.copies.items ≡ length shapes.now }
        requires new { slice_index_or self.old.copies.items array None ≡ None }
        requires room { HasRoom shapes.now self.old 0 }
        ensures line { OnOk result (held self.new ≡ load_view shapes.now array (held self.old)) }
        ensures keeps { OnOk result (Keeps shapes.now self.old self.new) }
    {
        let index = self.index(alloc, shapes, array as usize)?;
        emit(&mut self.out, Instr::Index(array, index))?;
        let word = emit(&mut self.out, Instr::Load(array))?;
        self.copies[array as usize] = Some(word);
        Ok(())
    }

    // The instructions of an array's index. Gives its operand.
    fn index(
        &mut self,
        alloc: Global,
        shapes: &[ArrayShape],
        array: usize,
    ) -> Result<Operand, AllocError>
        requires there { array < length shapes.now }
        requires room { self.old.out.next + index_operators (index_at shapes.now array) ≤ 1988 }
        ensures result { IfOk result (λ x. x ≡ (index_code shapes.now array
            (held self.old)).result) }
        ensures instrs { OnOk result (held self.new ≡ adds_index shapes.now array (held self.old)) }
        ensures count { OnOk result (self.new.out.next ≡
            self.old.out.next + index_operators (index_at shapes.now array)) }
    {
        match &shapes[array].index {
            Some(index) => flat_expr(alloc, &self.fields, &self.copies, index, &mut self.out),
            None => Ok(Operand::Number(0)),
        }
    }
}
