//! The registers of generated programs, by their numbers.

/// Those that drawn instructions compute with: t0, t1, t2, s2, t3, t4, t5 and t6.
pub(crate) const COMPUTED: [u32; 8] = [5, 6, 7, 18, 28, 29, 30, 31];
/// s0, the address of the words that are loaded and stored.
pub(crate) const DATA: u32 = 8;
/// s1, the address of the word that atomic additions change.
pub(crate) const SUM: u32 = 9;
/// a0, the argument of a service.
pub(crate) const ARGUMENT: u32 = 10;
/// a7, the number of a service.
pub(crate) const SERVICE: u32 = 17;
