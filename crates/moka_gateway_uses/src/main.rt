//! A program that keeps a gateway between the lines that are typed, as a server's loop would keep it
//! between the bytes of its sockets. Each line is answered at once.
//!
//! Upstream is played by a table: it answers what a line fetched once the next line has come.
#![tactic(auto)]

ghost use Rattle.moka_gateway.specs.Gateway.{IsUsable};

mod server;

use server::Server;
use std::io;

fn main(rt: HostRuntime) -> io::Result<()> {
    let mut server = Server::new(rt.alloc())?;
    let served = serve_all(&rt, &mut server);
    drop(server);
    served
}

/// Answers each line that is typed, and lets upstream answer what is open at the end.
fn serve_all(rt: &HostRuntime, server: &mut Server) -> io::Result<()>
    requires { IsUsable server.old.gateway }
{
    for line in rt.lines(rt.alloc()) {
        server.serve(rt, line?.as_str())?;
    }
    server.answer_all(rt)
}
