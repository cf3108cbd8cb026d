//! A socket at which a call for a datagram waits.

use std::io;
use std::net::UdpSocket;
use std::time::Duration;

/// A socket at which a call for a datagram waits as long as a timeout.
#[derive(Drop)]
pub struct TimedSocket {
    socket: UdpSocket,
}

impl TimedSocket {
    /// The same socket, with this timeout, which mustn't be zero. The timeout is that of all who share the socket; what they
    /// send doesn't wait for it.
    pub fn new(socket: &UdpSocket, timeout: Duration) -> io::Result<TimedSocket> {
        let socket = socket.try_clone()?;
        socket.set_read_timeout(Some(timeout))?;
        Ok(TimedSocket { socket })
    }

    /// The socket.
    pub fn into_socket(self) -> UdpSocket {
        self.socket
    }
}
