//! The lock word of a location.
ghost use Rattle.std.specs.Prelude.{◌≡◌, ◌<◌, ◌%◌, ◌^◌};
ghost use Rattle.vlock_word.specs.LockWord.{bits, unbits, version_of, is_locked_word, is_usable_at};
ghost use Rattle.vlock_word.specs.declared.lock_word.LockWord.TheVariants.{Free, Locked};

/// The lock word of a location: free, or locked by a commit, with the version of its value.
#[derive(Clone, Copy, Debug, PartialEq, Eq)]
pub enum LockWord {
    /// No commit holds the location. The version is the number of the commit that wrote it last.
    Free(u64),
    /// A commit holds the location. The version is the one that it had when it was free.
    Locked(u64),
}

impl LockWord {
    /// The word of a location that no commit holds.
    pub fn free(version: u64) -> LockWord
        requires { version < 2 ^ 63 }
        ensures { result ≡ Free version }
    {
        Self::Free(version)
    }

    /// The word of a location that a commit holds, with the version that it had before.
    pub fn locked(version: u64) -> LockWord
        requires { version < 2 ^ 63 }
        ensures { result ≡ Locked version }
    {
        Self::Locked(version)
    }

    /// The lock word of a number: its lowest bit is the lock, and the rest is the version.
    pub fn read(word: u64) -> LockWord
        ensures is { result ≡ unbits word }
        ensures back { bits result ≡ word }
        ensures version { version_of result < 2 ^ 63 }
    {
        if word % 2 == 0 {
            Self::Free(word / 2)
        } else {
            Self::Locked(word / 2)
        }
    }

    /// The number of this lock word, `2 * version + locked`. Of a version of 2^63 or more the top bit is lost.
    pub fn bits(self) -> u64
        ensures wraps { result ≡ bits self % 2 ^ 64 }
        ensures is { version_of self < 2 ^ 63 → result ≡ bits self }
        ensures back { version_of self < 2 ^ 63 → unbits result ≡ self }
    {
        match self {
            LockWord::Free(version) => version.wrapping_mul(2),
            LockWord::Locked(version) => version.wrapping_mul(2).wrapping_add(1),
        }
    }

    /// The number of the commit that wrote the location last.
    pub fn version(self) -> u64
        ensures { result ≡ version_of self }
    {
        match self {
            LockWord::Free(version) => version,
            LockWord::Locked(version) => version,
        }
    }

    /// Whether a commit holds the location.
    pub fn is_locked(self) -> bool
        ensures { result ≡ is_locked_word self }
    {
        match self {
            LockWord::Free(_) => false,
            LockWord::Locked(_) => true,
        }
    }

    /// Whether a transaction that began at the clock `rv` may read the value beside this word: the
    /// location is free, and no commit after `rv` wrote it.
    pub fn usable(self, rv: u64) -> bool
        ensures { result ≡ is_usable_at self rv }
    {
        match self {
            LockWord::Free(version) => version <= rv,
            LockWord::Locked(_) => false,
        }
    }
}
