// Whether the last part of what is read must stand: the name of a parameter and the body of a function must, those of a field and of a
// trait's method may.
#[derive(Clone, Copy)]
pub(crate) enum Presence {
    Required,
    Optional,
}
