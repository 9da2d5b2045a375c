pub(crate) mod claiming;
pub(crate) mod showing;
