// The line call by value: the call itself, over the panel and the records that the bytes say.
use panel::Panel;
use session::Desk;

// The panel that the state's bytes are.
fn panel_in(desk: &Desk) -> Panel {
    Panel {
        line: statebytes::line::read_line(&desk.state),
        body: statereads::read_body(&desk.state),
    }
}

// The call, from the bytes and back to them.
pub fn line(desk: &mut Desk, piece: &[u8]) {
    let mut register = registerbytes::read(&desk.faults);
    let said = calls::line(
        panel_in(desk),
        piece,
        &mut desk.picture,
        &desk.font,
        &mut desk.list,
        &mut desk.reply,
        &mut register,
    );
    statewrites::write(&mut desk.state, said.panel.line, said.panel.body);
    registerbytes::write(&mut desk.faults, register);
    saidbytes::write(
        &mut desk.said,
        said.answer,
        said.counts,
        said.reply,
        said.listed,
    );
}
