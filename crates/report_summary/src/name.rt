//! Which delivery is meant.

/// Which delivery is meant, by the names of its sender and of its files.
#[derive(Clone, Copy)]
pub struct DeliveryName<'n> {
    /// The name of its sender, if the folder has a folder of that sender's.
    pub sender: Option<&'n str>,
    /// The name of its files, without their endings.
    pub name: &'n str,
}

impl<'n> DeliveryName<'n> {
    /// The sender as a cell shows it: empty where there is none.
    pub(crate) fn sender_bytes(self) -> &'n [u8] {
        match self.sender {
            Some(sender) => sender.as_bytes(),
            None => &[],
        }
    }
}
