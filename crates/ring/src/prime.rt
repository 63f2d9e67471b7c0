// The two primes of q = q1 q2 (000, 2.7.2): which of them a step is modulo.
#[derive(Clone, Copy)]
pub enum Prime {
    // q1
    First,
    // q2
    Second,
}
