ghost use Rattle.std.specs.Prelude.{◌≡◌, ◌+◌, ◌≢◌, ℕ, ◌≤◌, ℤ, pos, neg_ℤ, ◌*ℤ◌, ◌≤ℤ◌, List, length, unsigned_abs, OnOk, IfOk};
ghost use Rattle.ac_base.specs.Gcd.{DividesEach};
ghost use Rattle.ac_base.specs.Multiple.{IsMultiple};
ghost use Rattle.ac_forms.specs.Affine.{Affine, combined, scaled};
ghost use Rattle.ac_forms.specs.Fits.{Fits};
ghost use Rattle.ac_forms.specs.Negation.{with_column};
ghost use Rattle.ac_forms.specs.NormalRows.{divided};
ghost use Rattle.ac_forms.specs.Rows.{form_of};
ghost use Rattle.ac_forms.specs.declared.conj.Conj.{Conj};
ghost use Rattle.ac_forms.specs.declared.row.Row.{Row};
ghost use Rattle.ac_forms.specs.declared.row.Row.TheVariants.{Eq, Div, Ge};
ghost use Rattle.ac_cert.specs.Rules.{with_column_row};
ghost use Rattle.ac_cert.specs.StepRows.{IsAt};
ghost use Rattle.ac_omega_certify.specs.TreePathRows.{StandsAt, Reaches, Leads, Grows, IsSameBase, AreOpposite, CanScale, LeavesMultiple, Renames, CanAdd, Blends, sum_of};

use ac_base::Items;
use ac_cert::types::Step;
use ac_forms::Form;
use std::alloc::{AllocError, Global};

/// The steps of a tree so far, and what is known of the rows that they lead to. After want of memory a tree path is of no use.
#[derive(Drop)]
pub struct TreePath {
    /// The steps.
    pub steps: Items<Step>,
    /// How many columns there are behind them.
    pub columns: usize,
    /// How many rows.
    pub rows: usize,
    /// The place of the row `1 >= 0`.
    pub one: usize,
}

impl TreePath {
    /// Adds a step that makes one row, and gives the row's place.
    pub fn add_row(&mut self, step: Step) -> Result<usize, AllocError>
        ensures { IfOk result (λ i. Grows self.old self.new step i) }
    {
        let place = self.rows;
        let Some(rows) = place.checked_add(1) else {
            return Err(AllocError);
        };
        self.steps.push(step)?;
        self.rows = rows;
        Ok(place)
    }

    /// Adds k times a row and l times another, and gives the place of the sum.
    pub fn add_two(
        &mut self,
        alloc: Global,
        x: usize,
        k: i128,
        y: usize,
        l: i128,
    ) -> Result<usize, AllocError>
        ensures base { OnOk result (IsSameBase self.old self.new) }
        ensures place { IfOk result (λ i. i ≡ self.old.rows) }
        ensures leads { IfOk result (λ i. (start path : Conj) (names : List ℕ) (r s : Row) → Reaches self.old start path → StandsAt names path x r → StandsAt names path y s → CanAdd k r → CanAdd l s → Blends k (form_of r) l (form_of s) → Leads self.new start path names i (sum_of k r l s)) }
    {
        let terms = Items::from_slice(alloc, &[(x, k), (y, l)])?;
        let place = self.add_row(Step::Add(terms))?;
        Ok(place)
    }

    /// Divides a row `>= 0` by a positive number that divides all its coefficients, and gives the place of the quotient.
    pub fn cut(&mut self, x: usize, g: i128) -> Result<usize, AllocError>
        ensures base { OnOk result (IsSameBase self.old self.new) }
        ensures leads { IfOk result (λ i. (start path : Conj) (names : List ℕ) (f : Affine) → Reaches self.old start path → StandsAt names path x (Ge f) → pos 1 ≤ℤ g → DividesEach (unsigned_abs g) f.coefs → Leads self.new start path names i (Ge (divided g f))) }
    {
        let place = self.add_row(Step::Cut(x, g))?;
        Ok(place)
    }

    /// The equality of two rows `>= 0` with opposite forms: the place of that of the first form.
    pub fn join(&mut self, x: usize, y: usize) -> Result<usize, AllocError>
        ensures base { OnOk result (IsSameBase self.old self.new) }
        ensures leads { IfOk result (λ i. (start path : Conj) (names : List ℕ) (f g : Affine) → Reaches self.old start path → StandsAt names path x (Ge f) → StandsAt names path y (Ge g) → AreOpposite f g → Blends (pos 1) f (pos 1) g → Leads self.new start path names i (Eq f)) }
    {
        let place = self.add_row(Step::EqCut(x, y))?;
        Ok(place)
    }

    /// The multiple of a divisibility, and of its modulus, by a number other than 0: its place.
    pub fn scale(&mut self, x: usize, k: i128) -> Result<usize, AllocError>
        ensures base { OnOk result (IsSameBase self.old self.new) }
        ensures leads { IfOk result (λ i. (start path : Conj) (names : List ℕ) (m : ℤ) (f : Affine) → Reaches self.old start path → StandsAt names path x (Div m f) → k ≢ pos 0 → Fits (pos (unsigned_abs k)) → Fits (m *ℤ pos (unsigned_abs k)) → CanScale k f → Leads self.new start path names i (Div (m *ℤ pos (unsigned_abs k)) (scaled k f))) }
    {
        let place = self.add_row(Step::DivScale(x, k))?;
        Ok(place)
    }

    /// k times a divisibility and l times another with the same modulus: the place of the sum.
    pub fn add_divisibilities(
        &mut self,
        x: usize,
        k: i128,
        y: usize,
        l: i128,
    ) -> Result<usize, AllocError>
        ensures base { OnOk result (IsSameBase self.old self.new) }
        ensures leads { IfOk result (λ i. (start path : Conj) (names : List ℕ) (m : ℤ) (f g : Affine) → Reaches self.old start path → StandsAt names path x (Div m f) → StandsAt names path y (Div m g) → Blends k f l g → Leads self.new start path names i (Div m (combined k f l g))) }
    {
        let place = self.add_row(Step::DivAdd(x, k, y, l))?;
        Ok(place)
    }

    /// A positive number divides the form of an equality: the place of that row.
    pub fn divide_zero(&mut self, x: usize, n: i128) -> Result<usize, AllocError>
        ensures base { OnOk result (IsSameBase self.old self.new) }
        ensures leads { IfOk result (λ i. (start path : Conj) (names : List ℕ) (f : Affine) → Reaches self.old start path → StandsAt names path x (Eq f) → pos 1 ≤ℤ n → Leads self.new start path names i (Div n f)) }
    {
        let place = self.add_row(Step::DivEq(x, n))?;
        Ok(place)
    }

    /// A further column q with `form - m q = 0`, where m divides the form of row x: the place of that row.
    pub fn quotient(&mut self, x: usize) -> Result<usize, AllocError>
        ensures columns { OnOk result (self.new.columns ≡ self.old.columns + 1) }
        ensures one { OnOk result (self.new.one ≡ self.old.one) }
        ensures place { IfOk result (λ i. i ≡ self.old.rows) }
        ensures reaches { IfOk result (λ i. (start path : Conj) (m : ℤ) (f : Affine) → Reaches self.old start path → IsAt path x (Div m f) → pos 1 ≤ℤ m → length f.coefs ≤ path.columns → Reaches self.new start (with_column_row path (Eq (with_column path.columns (neg_ℤ m) f)))) }
    {
        let Some(columns) = self.columns.checked_add(1) else {
            return Err(AllocError);
        };
        let place = self.add_row(Step::Quot(x))?;
        self.columns = columns;
        Ok(place)
    }

    /// n divides a form on the path, where `g n` divides the modulus of row x and each number of its form less g times
    /// that form: the place of that row.
    pub fn reduce(&mut self, x: usize, g: i128, n: i128, form: Form) -> Result<usize, AllocError>
        ensures base { OnOk result (IsSameBase self.old self.new) }
        ensures leads { IfOk result (λ i. (start path : Conj) (names : List ℕ) (m : ℤ) (e f : Affine) → Reaches self.old start path → StandsAt names path x (Div m e) → Renames names f form → length form.coefs ≤ path.columns → pos 1 ≤ℤ g → pos 1 ≤ℤ n → Fits (g *ℤ n) → IsMultiple (g *ℤ n) m → Blends (pos 1) e (neg_ℤ g) f → LeavesMultiple (g *ℤ n) e g f → Leads self.new start path names i (Div n f)) }
    {
        let place = self.add_row(Step::DivMod(x, g, n, form))?;
        Ok(place)
    }
}
