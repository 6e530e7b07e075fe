//! `Few`: a list with no heap.
ghost use Rattle.std.specs.Prelude.{◌≡◌, ◌<◌, ◌≤◌, ◌++◌, [], length};
ghost use Rattle.level.specs.Few.{few_of, with_one, first_few};

use std::marker::Model;

// At most N of a kind, in order. The places stand in the value itself: there is no heap.
#[derive(Clone, Copy)]
pub struct Few<T, const N: usize> {
    items: [T; N],
    count: usize,
}

impl<T, const N: usize> Model for Few<T, N> {
    ghost use Rattle.std.specs.Prelude.{◌≡◌, ◌≤◌, ◌++◌, length, take, drop};
    ghost use Rattle.std.proofs.Common.{arith, take-append-drop, length-take-le};
    ghost use Rattle.level.specs.Few.{Few as Content, few_code};

    ghost Value = { Content T };

    ghost coded = { few_code T.code };

    ghost view = { λ v. record { these = take v.count v.items; spare = drop v.count v.items } };

    ghost invariant = { λ v. (v.count ≤ N) × (length v.items ≡ N) };

    ghost inverse = { λ s. record { items = s.these ++ s.spare; count = length s.these } };

    ghost inverse_ok = { λ v h i. record {
      items = take-append-drop v.count v.items i;
      count = length-take-le v.count v.items (omega (arith, h.0, h.1)) i;
    } };
}

impl<T: Copy, const N: usize> Few<T, N> {
    // None yet; each place holds `blank`.
    pub fn new(blank: T) -> Self
        ensures { result ≡ few_of N blank [] }
    {
        Few {
            items: [blank; N],
            count: 0,
        }
    }

    // How many there are.
    pub fn len(&self) -> usize
        ensures value { result ≡ length self.now.these }
        ensures fits { result ≤ N }
    {
        self.count
    }

    // One more, behind the others.
    pub fn push(&mut self, x: T)
        requires { length self.old.these < N }
        ensures { self.new ≡ with_one self.old x }
    {
        self.items[self.count] = x;
        self.count += 1;
    }

    // Only the first n stay.
    pub fn truncate(&mut self, n: usize)
        ensures { self.new ≡ first_few self.old n }
    {
        self.count = self.count.min(n);
    }

    // Those that there are.
    pub fn as_slice(&self) -> &[T]
        ensures value { result.now ≡ self.now.these }
        ensures fits { length result.now ≤ N }
    {
        &self.items[..self.count]
    }

    // All places.
    pub fn into_array(self) -> [T; N]
        ensures { result ≡ self.these ++ self.spare }
    {
        self.items
    }
}
