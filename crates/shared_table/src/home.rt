//! Where a base is stored while its gate is free.
//!
//! Each home is a piece of memory of its own. A slot of the table holds the pointer to it, which no step writes, so that the bases of two
//! collections are lifted and put back at once without a line of the cache that both write.
ghost use Rattle.std.specs.Prelude.{◌≡◌, None, Some};

use actor_parts::Boxed;
use std::marker::Model;

/// The place of a base, with room on either side, as memory comes aligned to 16 bytes alone. Contracts see the base, or none while a
/// seat works on it.
#[derive(Drop)]
pub struct Home<B> {
    before: [u64; 6],
    base: Option<Boxed<B>>,
    behind: [u64; 8],
}

impl<B> Model for Home<B> {
    ghost use Rattle.std.specs.Prelude.{Option};

    ghost Value = { Option B };

    ghost view = { λ h. h.base };
}

impl<B> Home<B> {
    pub(crate) fn of(base: Boxed<B>) -> Home<B>
        ensures { result ≡ Some base }
    {
        Home {
            before: [0; 6],
            base: Some(base),
            behind: [0; 8],
        }
    }

    pub(crate) fn base(&self) -> &Option<Boxed<B>>
        ensures { result.now ≡ self.now }
    {
        &self.base
    }

    #[inline(always)]
    fn lift(&mut self) -> Option<Boxed<B>>
        ensures lifted { result ≡ self.old }
        ensures bare { self.new ≡ None }
    {
        self.base.take()
    }

    // Nothing is stored there, so nothing is dropped.
    #[inline(always)]
    fn put(&mut self, base: Boxed<B>)
        requires { self.old ≡ None }
        ensures { self.new ≡ Some base }
    {
        let was = self.base.replace(base);
        let None = was else { unreachable!() };
    }
}

#[inline(always)]
pub(crate) fn lift<B>(home: &mut Boxed<Home<B>>) -> Option<Boxed<B>>
    ensures lifted { result ≡ home.old }
    ensures bare { home.new ≡ None }
{
    home.get_mut().lift()
}

#[inline(always)]
pub(crate) fn put<B>(home: &mut Boxed<Home<B>>, base: Boxed<B>)
    requires { home.old ≡ None }
    ensures { home.new ≡ Some base }
{
    home.get_mut().put(base);
}
