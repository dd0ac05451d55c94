ghost use Rattle.std.specs.Prelude.{◌≡◌, ◌≤◌, ℕ, All, IfOk, length, sum_by};

use crate::steps::circuit::Circuit;
use std::alloc::AllocError;

/// How many elements all circuits have.
pub fn count_elements(circuits: &[Circuit]) -> Result<usize, AllocError>
    ensures { IfOk result (λ n. n ≡ sum_by (λ c. length c.elements.items) circuits.now) }
{
    let mut count = 0usize;
    for circuit in circuits {
        let Some(sum) = count.checked_add(circuit.elements.len()) else {
            return Err(AllocError);
        };
        count = sum;
    }
    Ok(count)
}

/// How many rows the circuit with the most of them has; 0 where there is none.
pub fn most_rows(circuits: &[Circuit]) -> usize
    ensures { All (λ c. c.rows ≤ result) circuits.now }
{
    let mut most = 0usize;
    for circuit in circuits {
        most = most.max(circuit.rows);
    }
    most
}

/// How many coils the circuit with the most of them has; 0 where there is none.
pub fn most_coils(circuits: &[Circuit]) -> usize
    ensures enough { All (λ c. length c.coils.items ≤ result) circuits.now }
    ensures least { (n : ℕ) → All (λ c. length c.coils.items ≤ n) circuits.now → result ≤ n }
{
    let mut most = 0usize;
    for circuit in circuits {
        most = most.max(circuit.coils.len());
    }
    most
}

/// How many boxes the circuit with the most of them has; 0 where there is none.
pub fn most_boxes(circuits: &[Circuit]) -> usize
    ensures enough { All (λ c. length c.boxes.items ≤ result) circuits.now }
    ensures least { (n : ℕ) → All (λ c. length c.boxes.items ≤ n) circuits.now → result ≤ n }
{
    let mut most = 0usize;
    for circuit in circuits {
        most = most.max(circuit.boxes.len());
    }
    most
}
