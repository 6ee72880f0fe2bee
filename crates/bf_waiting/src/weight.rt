//! The total weight of a task.
ghost use Rattle.std.specs.Prelude.{◌≡◌, slice_index};

/// The weight of a task, by its number, among the weights of all tasks; 0 where there is no such task.
pub fn weight_of(weights: &[u32], task: u32) -> u32
    ensures { result ≡ slice_index weights.now task }
{
    match weights.get(task as usize) {
        Some(weight) => *weight,
        None => 0,
    }
}
