ghost use Rattle.std.specs.Prelude.{◌≡◌, ◌≢◌, ◌≤◌, [], ◌∷◌, length, take, drop, reverse, OnOk};

use funcs::Arg;
use ss_base::Memory;
use std::alloc::Global;
use std::marker::Model;

/// The arguments that steps have left, which contracts see as their list, the uppermost first.
#[derive(Drop)]
pub(crate) struct Stack {
    args: Vec<Arg>,
}

impl Model for Stack {
    ghost use Rattle.std.specs.Prelude.{List, reverse};
    ghost use Rattle.std.specs.Coded.{coded_list};
    ghost use Rattle.funcs.specs.contracts.arg.Arg as argument;
    ghost use Rattle.funcs.specs.declared.arg.Arg.{Arg};

    ghost Value = { List Arg };

    ghost coded = { coded_list argument.the_row.coded };

    ghost view = { λ s. reverse s.args.items };
}

impl Stack {
    pub(crate) fn new(alloc: Global) -> Stack
        ensures { result ≡ [] }
    {
        Stack {
            args: Vec::new(alloc),
        }
    }

    /// Puts an argument on top.
    pub(crate) fn push(&mut self, arg: Arg) -> Result<(), Memory>
        ensures { OnOk result (self.new ≡ arg ∷ self.old) }
    {
        self.args.push(arg)?;
        Ok(())
    }

    /// Takes the argument on top.
    pub(crate) fn pop(&mut self) -> Arg
        requires { self.old ≢ [] }
        ensures { self.old ≡ result ∷ self.new }
    {
        match self.args.pop() {
            Some(arg) => arg,
            None => unreachable!(),
        }
    }

    /// So many arguments on top, the uppermost last.
    pub(crate) fn top(&self, count: usize) -> &[Arg]
        requires { count ≤ length self.now }
        ensures { result.now ≡ reverse (take count self.now) }
    {
        let (_, top) = self.args.split_at(self.args.len() - count);
        top
    }

    /// Drops so many arguments on top.
    pub(crate) fn cut(&mut self, count: usize)
        requires { count ≤ length self.old }
        ensures { self.new ≡ drop count self.old }
    {
        self.args.truncate(self.args.len() - count);
    }
}
