//! The names of shift types.
use shift_instance::Instance;

/// The name of a type, by its number, as the planner wrote it.
pub(crate) fn kind_name(instance: &Instance, kind: u16) -> &str {
    let parts = instance.parts();
    match parts.types.get(usize::from(kind)) {
        Some(kind) => kind.name.as_str(),
        None => "",
    }
}
